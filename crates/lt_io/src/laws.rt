//! How what a source hands out, and what a sink gains, adds up over several calls.

ghost use Rattle.std.specs.Prelude.{List, ℕ, [], ◌++◌, Option};
ghost use Rattle.lt_io.specs.Streams.{Takes, Gains, GainsFront};

use super::sink::Sink;

/// Nothing was taken; and what was taken first and then.
pub fn takes_compose()
    ensures none { (left : Option (List ℕ)) → Takes left left [] }
    ensures more { (before between after : Option (List ℕ)) (xs ys : List ℕ) → Takes before between xs
        → Takes between after ys → Takes before after (xs ++ ys) }
{}

/// Nothing was gained; and what was gained first and then, all of it or a front.
pub fn gains_compose<K: Sink>()
    ensures none { (sink : K) → Gains (K.stands sink) (K.stands sink) [] }
    ensures more { (old between new : K) (xs ys : List ℕ) → Gains (K.stands old) (K.stands between) xs
        → Gains (K.stands between) (K.stands new) ys → Gains (K.stands old) (K.stands new) (xs ++ ys) }
    ensures all { (old new : K) (xs ys : List ℕ) → Gains (K.stands old) (K.stands new) xs
        → GainsFront (K.stands old) (K.stands new) (xs ++ ys) }
    ensures front { (old between new : K) (xs ys : List ℕ) → Gains (K.stands old) (K.stands between) xs
        → GainsFront (K.stands between) (K.stands new) ys → GainsFront (K.stands old) (K.stands new) (xs ++ ys) }
    ensures longer { (old new : K) (xs ys : List ℕ) → GainsFront (K.stands old) (K.stands new) xs
        → GainsFront (K.stands old) (K.stands new) (xs ++ ys) }
{}
