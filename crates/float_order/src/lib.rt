#![tactic(auto)]

// The order of `f64` values with signs, zeros and infinities, as mathematics for the specs and proofs of other crates: there is no code.
// Others cite a file of `specs/` as `Rattle.float_order.specs.FILE`. The laws of Relative, Dyadic and Equal, and Gaps, are in `proofs/`: `Rattle.float_order.proofs.FILE`.
//   Order, Round, Ops     `le` and `lt`; rounding keeps the order; each operation as the rounding of a fraction, monotone, of known sign, no NaN
//   Range, Interval, Abs  x in [lo, hi], `In lo hi x`: the range of a result, its ends given (`add-in`) or computed (`add_at`); |x| ≤ a
//   Exact, Same, Gaps     a value of the format is its own rounding: x ≤ x + y; equal numbers are the same data; no float between neighbours
//   Whole, Plus           whole numbers up to 2 ^ 53; x + k unrounded, and how a sum climbs by whole steps
//   Error, Relative       absolute and relative error of one rounding
//   Dyadic, Equal         fractions that the format holds: scaling by powers of two, exact sums, differences, products
//   Casts, Bits, Digits   integers to floats and back; bit patterns; binary digits and `compare`
// A range proof (Examples.antt): a lemma over plain floats, a typed `let` for each operation, each closed test by `unfold floats in tt`. An end is
// any finite value, `nat 40000`, `fin false 1 (pos 97)`; a literal of the code is `of_bits binary64 0x..`. A branch gives an end by `low-left`,
// `high_taken` .. of Range. In a proof file, only apply the lemma.
