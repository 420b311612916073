//! The output and the status for each of several inputs.
use arbitrary_int::Watched;
use bitrun_service::serving::{serve, serve_in};
use bitrun_text::fault::Fault;
use linked_list_allocator::LocalHeap;
use std::test::Fail;

const STOPPED: &[u8] = b"run u7\n100 50 0\nwadd 2 0 1\ncadd 0 0 1\n";

const BAD: &[u8] = b"run u7\n100 50 0\nwadd 2 0 1\nwadd 3 0 1\n";

const WIDE: &[u8] = b"wide u14 i7\n200 300\nwmul 0 0 1\nnot 1 1\n";

#[test]
fn outputs(rt: HostRuntime) -> Result<(), Fail> {
    let rows: [(&[u8], &[u8]); 18] = [
        (STOPPED, b"100 50 22\nstopped at 1: refused\n"),
        (b"run u7\n\n", b"\ndone\n"),
        (b"run u14\n16383 200\nwadd 0 0 1", b"199 200\ndone\n"),
        (b"run u7\n-0", b"0\ndone\n"),
        (b"run i7\n63 1\nwadd 0 0 1\ncadd 0 0 1", b"-63 1\ndone\n"),
        (
            b"run i14\n-8192 -1 0 0\nsdiv 2 0 1\nwdiv 1 0 1\nwdiv 0 0 3",
            b"-8192 -8192 8191 0\nstopped at 2: zero divisor\n",
        ),
        (b"run u7\n5 0\ncdiv 0 0 1", b"5 0\nstopped at 0: refused\n"),
        (
            b"run i14\n-4\nspow 0 0 3\nspow 0 0 4294967295",
            b"-8192\ndone\n",
        ),
        (b"run u7\n0\nspow 0 0 0", b"1\ndone\n"),
        (b"run i7\n-1\nspow 0 0 4294967295", b"-1\ndone\n"),
        (b"run  u7 \r\n005\n", b"5\ndone\n"),
        (b"run u7\r\n1\r\nrev\t00 0\r\n", b"64\ndone\n"),
        (
            b"run i120\n-664613997892457936451903530140172288 -1000000000000000001",
            b"-664613997892457936451903530140172288 -1000000000000000001\ndone\n",
        ),
        (
            b"run u120\n1329227995784915872903807060280344575",
            b"1329227995784915872903807060280344575\ndone\n",
        ),
        (WIDE, b"10848 16083\n-32 -45\ndone\n"),
        (
            b"wide u14 u7\n200 16383\ncadd 0 0 1",
            b"200 16383\n72 127\nstopped at 0: refused\n",
        ),
        (b"wide i14 u7\n\n", b"\n\ndone\n"),
        (b"run u7\n5 0\nneg 0 0\nneg 1 1", b"123 0\ndone\n"),
    ];
    for (input, output) in rows {
        let mut reader = Watched::new(input);
        let mut writer = Watched::new(Vec::new(rt.alloc()));
        assert_eq!(rt; serve(rt.alloc(), &mut reader, &mut writer), Ok(()));
        assert!(rt; !reader.failed() && !writer.failed());
        let written = writer.into_inner();
        assert_eq!(rt; written.as_slice(), output);
    }
    Ok(())
}

#[test]
fn bad_lines(rt: HostRuntime) -> Result<(), Fail> {
    let rows: [(&[u8], usize); 24] = [
        (b"", 1),
        (b"\nrun u7\n", 1),
        (b"RUN u7\n1", 1),
        (b"run u8\n1", 1),
        (b"wide u7 u14\n1", 1),
        (b"wide u14 u7 u7\n1", 1),
        (b"wide u14 u7\n16384", 2),
        (b"run u7\n", 2),
        (b"run u7\n128", 2),
        (b"run i1\n1", 2),
        (b"run u7\n+1", 2),
        (b"run u7\n-", 2),
        (b"run u7\n\xff", 2),
        (b"run u120\n1329227995784915872903807060280344576", 2),
        (b"run u7\n\n100", 3),
        (b"run u7\n1\nrev 0 0 0", 3),
        (b"run u7\n1\nrev -0 0", 3),
        (b"run u7\n1\nwshl 0 0 4294967296", 3),
        (b"run u7\n1\nwadd 0 0", 3),
        (b"run u7\n1\nwadd 0 0 0 0", 3),
        (b"run u7\n1\nwadd 0 0 18446744073709551616", 3),
        (b"run u7\n1\nwaddx 0 0 0", 3),
        (BAD, 4),
        (b"run u7\n1 0\nwdiv 0 0 1\nwadd 9 0 0\nx", 4),
    ];
    for (input, line) in rows {
        let mut reader = Watched::new(input);
        let mut writer = Watched::new(Vec::new(rt.alloc()));
        let outcome = serve(rt.alloc(), &mut reader, &mut writer);
        assert_eq!(rt; outcome, Err(Fault::Line(line)));
        let written = writer.into_inner();
        assert!(rt; written.is_empty());
    }
    Ok(())
}

#[test]
fn longest_input(rt: HostRuntime) -> Result<(), Fail> {
    let mut input = Vec::new(rt.alloc());
    input.extend_from_slice(b"run u7\n1\n")?;
    for _ in 0..65_527 {
        input.push(b'\n')?;
    }
    for outcome in [Ok(()), Err(Fault::TooLong)] {
        let mut reader = Watched::new(input.as_slice());
        let mut writer = Watched::new(Vec::new(rt.alloc()));
        assert_eq!(rt; serve(rt.alloc(), &mut reader, &mut writer), outcome);
        let written = writer.into_inner();
        let output: &[u8] = if outcome == Ok(()) { b"1\ndone\n" } else { b"" };
        assert_eq!(rt; written.as_slice(), output);
        input.push(b'\n')?;
    }
    Ok(())
}

// The heap grows by 8 bytes from run to run, so it refuses one growth after the other. A second step frees memory that
// later growths use. So the inputs with one step are those with which each growth is refused.
#[test]
fn memory_is_refused(rt: HostRuntime) -> Result<(), Fail> {
    let rows: [(&[u8], Result<(), Fault>, &[u8]); 5] = [
        (
            b"run u7\n100 50 0\ncadd 0 0 1\n",
            Ok(()),
            b"100 50 0\nstopped at 0: refused\n",
        ),
        (
            b"wide u14 i7\n200 300\nwmul 0 0 1\n",
            Ok(()),
            b"10848 300\n-32 44\ndone\n",
        ),
        (STOPPED, Ok(()), b"100 50 22\nstopped at 1: refused\n"),
        (WIDE, Ok(()), b"10848 16083\n-32 -45\ndone\n"),
        (BAD, Err(Fault::Line(4)), b""),
    ];
    for (input, outcome, text) in rows {
        let mut refused = 0;
        for step in 1..800usize {
            let heap = LocalHeap::new(rt.alloc(), 8 * step)?;
            let mut reader = Watched::new(input);
            let mut writer = Watched::new(Vec::new(rt.alloc()));
            let output = serve_in(&heap, &mut reader, &mut writer);
            let written = writer.into_inner();
            if output != Err(Fault::Memory) {
                assert_eq!(rt; output, outcome);
                assert_eq!(rt; written.as_slice(), text);
                break;
            }
            assert!(rt; written.is_empty());
            refused = step;
        }
        assert!(rt; refused > 3 && refused < 799, "refused {refused} times");
    }
    Ok(())
}

#[test]
fn faults(rt: HostRuntime) -> Result<(), Fail> {
    let rows: [(Fault, &str, u8); 5] = [
        (Fault::Line(12), "fault: line 12", 2),
        (Fault::TooLong, "fault: too long", 2),
        (Fault::Memory, "fault: memory", 3),
        (Fault::Read, "fault: read", 4),
        (Fault::Write, "fault: write", 5),
    ];
    for (fault, text, status) in rows {
        let printed = fault.to_string(rt.alloc())?;
        assert_eq!(rt; printed.as_str(), text);
        assert_eq!(rt; fault.status(), status);
    }
    Ok(())
}
