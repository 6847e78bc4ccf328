//! Words cut at a mark, as `, ` between values or ` at ` before a priority.

ghost use Rattle.std.specs.Prelude.{◌≡◌, ◌<◌, IfNone, IfSome, option_map};
ghost use Rattle.words.specs.Marks.{first_part, other_parts, but_last_part, last_part};
ghost use Rattle.words.specs.Says.{Has, HasNo, before, behind};

/// What stands before the first such ASCII character and what stands behind it, where there is one.
pub(crate) fn cut_at<'a>(words: &'a str, mark: char) -> Option<(&'a str, &'a str)>
    requires ascii { mark < 128 }
    ensures parted { IfSome result (λ x. Has mark words.entry.now) }
    ensures front { IfSome result (λ x. x.0.now ≡ before mark words.entry.now) }
    ensures rest { IfSome result (λ x. x.1.now ≡ behind mark words.entry.now) }
    ensures whole { IfNone result (HasNo mark words.entry.now) }
{
    words.split_once(mark)
}

/// What stands before the first mark, or all where there is none, and what stands behind it.
#[tactic(auto, using(crate::proofs::Marks::first_laws))]
pub(crate) fn cut_first<'a>(words: &'a str, mark: &str) -> (&'a str, Option<&'a str>)
    ensures front { result.0.now ≡ first_part mark.now words.entry.now }
    ensures rest { option_map (λ r. r.now) result.1 ≡ other_parts mark.now words.entry.now }
{
    match words.split_once(mark) {
        Some((front, rest)) => (front, Some(rest)),
        None => (words, None),
    }
}

/// What stands before the last mark, or all where there is none, and what stands behind it.
#[tactic(auto, using(crate::proofs::Marks::last_laws))]
pub(crate) fn cut_last<'a>(words: &'a str, mark: &str) -> (&'a str, Option<&'a str>)
    ensures front { result.0.now ≡ but_last_part mark.now words.entry.now }
    ensures rest { option_map (λ r. r.now) result.1 ≡ last_part mark.now words.entry.now }
{
    match words.rsplit_once(mark) {
        Some((front, rest)) => (front, Some(rest)),
        None => (words, None),
    }
}
