//! Laws of these integers for callers, as sets that the check's search can use. The crate has no functions. If a
//! function of yours names a set, as in `#[tactic(auto, using(arbitrary_laws::proofs::Sets::bits))]`, list this
//! crate in `crates.txt`. proofs/Sets.antt has the public sets. Each other file of proofs has laws of one topic,
//! and its head names its set, such as `arbitrary_laws::proofs::fields::FieldReads::field_reads`.
#![tactic(auto)]
