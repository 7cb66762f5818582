// What crosses in the call of a record, and the lines that tell it.
ghost use Rattle.std.specs.Prelude.{◌≡◌, IfOk, string_bytes, OnOk};
ghost use Rattle.entries.specs.Entry.{view};
ghost use Rattle.crossings.specs.Views.{listed};
ghost use Rattle.replay.specs.Calls.{call_of};
ghost use Rattle.replay.specs.Cards.{number_of};
ghost use Rattle.trace_text.specs.Pushed.{Pushed};
ghost use Rattle.game_trace.specs.Steps.{call_crossings, crossing_lines};

use crossings::crossing::Crossing;
use crossings::crossings_of;
use entries::record::Record;
use file_calls::call_of;
use replay::card::Card;
use rulebook::book::RuleBook;
use std::alloc::{AllocError, Global};
use table::table::Table;
use trace_text::push_crossing;

// What the call of a record would move; the only error is want of memory.
pub(crate) fn record_crossings<B: RuleBook>(
    heap: Global,
    table: &Table<B>,
    card: &Card,
    record: Record,
) -> Result<Vec<Crossing>, AllocError>
    ensures { IfOk result (λ v. listed v.items ≡ call_crossings (B.meaning table.now.book) table.now.books (call_of (number_of card.now) (view «record»))) }
{
    match call_of(card.number(), record) {
        Some(call) => crossings_of(heap, table.book(), table.books(), call),
        None => Ok(Vec::new(heap)),
    }
}

pub(crate) fn push_crossings(
    text: &mut String,
    players: u8,
    crossings: &[Crossing],
) -> Result<(), AllocError>
    ensures { OnOk result (Pushed (string_bytes text.old) (string_bytes text.new) (crossing_lines players (listed crossings.now))) }
{
    for crossing in crossings {
        push_crossing(text, players, *crossing)?;
    }
    Ok(())
}
