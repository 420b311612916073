//! Tests on whole texts of what `main` calls: the output and the status, also if memory is refused (`outputs`), and
//! readers and writers that fail (`streams`). Add the runs of a new step to `outputs`. `bitrun_service` states what
//! is proved.
mod outputs;
mod streams;
