//! Block comments, which may stand in one another.
ghost use Rattle.std.specs.Option.{option_map};
ghost use Rattle.std.specs.Prelude.{◌≡◌, ◌+◌, ◌<◌, ◌^◌, length};
ghost use Rattle.tokens.specs.Scanning.{behind_comments, comment_step};

/// One step through a comment: how many are open then, and what comes after.
#[tactic(auto, unfolding(crate::specs::Scanning::comment_step))]
fn step_in_comment(depth: usize, text: &[u8]) -> Option<(usize, &[u8])>
    requires { (0 < depth) × (depth + length text.now < 2 ^ 64) }
    ensures { option_map (λ x. (x.0, x.1.now)) result ≡ comment_step depth text.now }
{
    match text {
        [b'{', b'-', rest @ ..] => Some((depth + 1, rest)),
        [b'-', b'}', rest @ ..] => Some((depth - 1, rest)),
        [_, rest @ ..] => Some((depth, rest)),
        [] => None,
    }
}

/// What stands after the comment that is open, or `None` where it isn't closed.
#[tactic(auto, using(crate::proofs::Comments::behind_none_open))]
pub(crate) fn behind_comment(text: &[u8]) -> Option<&[u8]>
    requires { length text.now < 2 ^ 63 }
    ensures { option_map (λ x. x.now) result ≡ behind_comments text.now 1 }
{
    let mut depth: usize = 1;
    let mut rest = text;
    while depth != 0 {
        match step_in_comment(depth, rest) {
            Some((depth_then, rest_then)) => {
                depth = depth_then;
                rest = rest_then;
            }
            None => return None,
        }
    }
    Some(rest)
}
