// Whether the lent blocks hold a bank.
ghost use Rattle.std.specs.Prelude.{◌≡◌, IfOk};
ghost use Rattle.settings.specs.Internal.Replies.{reply_of};
ghost use Rattle.bank.specs.Internal.Words.{words_in, fit_of};
ghost use Rattle.bank.specs.Internal.Blocks.{words_under};

use crate::blocks::Blocks;
use layout::block::{Block, block_in};
use settings::refusals::Refusal;

// Looks at the three lengths and the layout word, and answers the blocks, or names the one that is not a bank's. They come one by one, as the
// exported calls are lent them.
pub fn fit<'a>(
    settings: &'a [u64],
    states: &'a [u64],
    marks: &'a [u64],
) -> Result<Blocks<'a>, Refusal>
    ensures reply { reply_of result ≡ fit_of (words_in settings.now states.now marks.now) }
    ensures blocks { IfOk result (λ blocks. words_under blocks ≡ words_in settings.now states.now marks.now) }
{
    let Some(settings) = block_in(settings) else {
        return Err(Block::Settings.missing());
    };
    let Some(states) = states.as_array() else {
        return Err(Block::States.missing());
    };
    let Some(marks) = marks.as_array() else {
        return Err(Block::Marks.missing());
    };
    Ok(Blocks {
        settings,
        states,
        marks,
    })
}
