//! Words cut at a mark, as ` within ` before a time.

ghost use Rattle.std.specs.Prelude.{◌≡◌, option_map};
ghost use Rattle.words.specs.Marks.{first_part, other_parts};

/// What stands before the first mark, or all where there is none, and what stands behind it.
#[tactic(auto, using(crate::proofs::CutLaws::cut_laws))]
pub(crate) fn cut_first<'a>(words: &'a str, mark: &str) -> (&'a str, Option<&'a str>)
    ensures front { result.0.now ≡ first_part mark.now words.entry.now }
    ensures rest { option_map (λ r. r.now) result.1 ≡ other_parts mark.now words.entry.now }
{
    match words.split_once(mark) {
        Some((front, rest)) => (front, Some(rest)),
        None => (words, None),
    }
}
