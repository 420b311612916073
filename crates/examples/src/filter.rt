//! A filter: the weighted sum of the last three samples, clamped to the range of a sample.

ghost use Rattle.std.specs.Prelude.{◌≡◌, ◌+ℤ◌, ◌*ℤ◌, ◌<ℤ◌, ◌≤ℤ◌, pos, neg_ℤ};

use arbitrary_int::prelude::*;

/// A filter of three taps. Its delay line keeps the two samples before the one that comes in.
pub struct Filter {
    /// The weights, in units of 1/1024: of the newest sample, of the one before, and of the oldest.
    pub newest: i12,
    pub middle: i12,
    pub oldest: i12,
    /// The last sample, and the one before it.
    pub last: i12,
    pub before: i12,
}

/// A weighted sample, in a type that has every such product.
// A function of its own: the check bounds one product at a time.
fn weighted(sample: i12, weight: i12) -> i24
    ensures { result ≡ sample *ℤ weight }
{
    i24::from_(sample) * i24::from_(weight)
}

/// The sum of three weighted samples, in a type that has every such sum.
fn sum(a: i24, b: i24, c: i24) -> i26
    ensures { result ≡ a +ℤ b +ℤ c }
{
    i26::from_(a) + i26::from_(b) + i26::from_(c)
}

/// The sample that is nearest to a wide number.
pub fn saturated(wide: i26) -> i12
    ensures below { wide <ℤ neg_ℤ (pos 2048) → result ≡ neg_ℤ (pos 2048) }
    ensures above { pos 2047 <ℤ wide → result ≡ pos 2047 }
    ensures exact { neg_ℤ (pos 2048) ≤ℤ wide → wide ≤ℤ pos 2047 → result ≡ wide }
{
    if wide < i26::new(-2048) {
        i12::min_value()
    } else if i26::new(2047) < wide {
        i12::max_value()
    } else {
        i12::from_(wide)
    }
}

impl Filter {
    /// Takes a sample in, and gives the sum of the three weighted samples.
    pub fn weigh(&mut self, sample: i12) -> i26
        ensures sum { result ≡ sample *ℤ self.old.newest +ℤ self.old.last *ℤ self.old.middle
            +ℤ self.old.before *ℤ self.old.oldest }
        ensures last { self.new.last ≡ sample }
        ensures before { self.new.before ≡ self.old.last }
        ensures newest { self.new.newest ≡ self.old.newest }
        ensures middle { self.new.middle ≡ self.old.middle }
        ensures oldest { self.new.oldest ≡ self.old.oldest }
    {
        let wide = sum(
            weighted(sample, self.newest),
            weighted(self.last, self.middle),
            weighted(self.before, self.oldest),
        );
        self.before = self.last;
        self.last = sample;
        wide
    }

    /// Takes a sample in, and gives the next of the filter: the weighted sum, divided by 1024 and rounded down,
    /// or the end of the range that is nearest.
    pub fn step(&mut self, sample: i12) -> i12
        ensures last { self.new.last ≡ sample }
        ensures before { self.new.before ≡ self.old.last }
        ensures low { neg_ℤ (pos 2048) <ℤ result → (pos 1024 *ℤ result) ≤ℤ
            (sample *ℤ self.old.newest +ℤ self.old.last *ℤ self.old.middle
            +ℤ self.old.before *ℤ self.old.oldest) }
        ensures high { result <ℤ pos 2047 →
            (sample *ℤ self.old.newest +ℤ self.old.last *ℤ self.old.middle
            +ℤ self.old.before *ℤ self.old.oldest)
            <ℤ (pos 1024 *ℤ result +ℤ pos 1024) }
    {
        let wide = self.weigh(sample);
        saturated(wide >> 10)
    }
}
