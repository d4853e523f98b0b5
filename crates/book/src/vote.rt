ghost use Rattle.std.specs.Prelude.{◌≡◌, ℕ, ◌^◌, ◌<◌, ◌≤◌, not, ◌&&◌, map, ◌==◌, nat_lt};
ghost use Rattle.conditions.specs.Choices.{positions, bit, Tells};
ghost use Rattle.book.specs.Lines.{seen};
ghost use Rattle.book.specs.Tables.{rows};
ghost use Rattle.book.specs.Votes.{has_cue, orphaned, lowest_below, vote_on};

use crate::line::Line;
use conditions::Condition;

// A transaction's vote: yes, or no with the lowest choice in which it commits and a shot has no cue.
// Not an Option: `None` for yes, or for no, would be no plainer.
#[derive(Clone, Copy)]
pub enum Vote {
    Yes,
    No(u8),
}

// The table of the firing script.
const SCRIPT: u8 = 1;

// The table of the music cues.
const CUES: u8 = 2;

// The cue is compared first: few lines have it.
fn is_cue<C: Condition>(line: &Line<C>, cue: u32) -> bool
    ensures { result ≡ (line.now.table == 2 && line.now.row.first == cue) }
{
    line.row.first == cue && line.table == CUES
}

// Those of the choices in which no line here has the cue of the music, one bit for each.
// It looks from the last line back, and stops where no choice is left.
fn uncued<C: Condition>(lines: &[Line<C>], cue: u32, choices: u64) -> u64
    ensures { Tells positions result (λ c. bit c choices && not (has_cue cue (rows 2 c (map (seen C.Condition.meaning) lines.now)))) }
{
    let mut left = choices;
    for line in lines.iter().rev() {
        if left == 0 {
            return 0;
        }
        if is_cue(line, cue) {
            left &= !line.condition.verdicts();
        }
    }
    left
}

// Those of the choices in which some shot has no cue. A shot matters only where it holds and no other was found.
// Its cue mostly stands a little before it, so the lines there are looked at first.
pub(crate) fn orphans<C: Condition>(lines: &[Line<C>], choices: u64) -> u64
    ensures { Tells positions result (λ c. bit c choices && orphaned c (map (seen C.Condition.meaning) lines.now)) }
{
    let mut found = 0;
    for (at, line) in lines.iter().enumerate() {
        if line.table == SCRIPT {
            let open = choices & !found & line.condition.verdicts();
            let (front, rest) = lines.split_at(at);
            let left = uncued(front, line.row.first, open);
            found |= uncued(rest, line.row.first, left);
        }
    }
    found
}

// The choices below a number from 1 to 64.
pub(crate) fn first_choices(count: u8) -> u64
    requires { (1 ≤ count) × (count ≤ 2 ^ positions) }
    ensures { (c : ℕ) → bit c result ≡ nat_lt c count }
{
    u64::MAX >> (64 - count)
}

// The vote where these choices speak against the transaction.
pub(crate) fn vote_against(choices: u64) -> Vote
    ensures { result ≡ vote_on (lowest_below (2 ^ positions) (λ c. bit c choices)) }
{
    if choices == 0 {
        return Vote::Yes;
    }
    Vote::No(choices.trailing_zeros() as u8)
}
