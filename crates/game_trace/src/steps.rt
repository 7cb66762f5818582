// One record after the other: each is made into a call, and told.
ghost use Rattle.std.specs.Prelude.{◌≡◌, ◌++◌, IfOk, string_bytes, OnOk};
ghost use Rattle.entries.specs.Entry.{view};
ghost use Rattle.listing.specs.Lines.{line};
ghost use Rattle.crossings.specs.Views.{listed};
ghost use Rattle.replay.specs.Cards.{number_of, fault_told};
ghost use Rattle.trace_text.specs.Pushed.{Pushed};
ghost use Rattle.game_trace.specs.Steps.{crossing_lines, unless_fault, held, Stepped};
ghost use Rattle.game_trace.specs.Trace.{traced_from};

use crate::crossed::{push_crossings, record_crossings};
use crossings::crossing::Crossing;
use entries::record::Record;
use gamefile::records::records_from;
use listing::push_record;
use replay::card::{Card, Refused};
use replay::records::make_record;
use rulebook::book::RuleBook;
use std::alloc::{AllocError, Global};
use table::table::Table;
use trace_text::push_refusal;

// The lines of a record that was granted, or that of its fault.
fn push_made(
    text: &mut String,
    place: usize,
    record: Record,
    players: u8,
    crossings: &[Crossing],
    made: &Result<Card, Refused>,
) -> Result<(), AllocError>
    ensures { OnOk result (Pushed (string_bytes text.old) (string_bytes text.new) (unless_fault (fault_told made.now) (line place (view «record») ++ crossing_lines players (listed crossings.now)))) }
{
    match made {
        Ok(_) => {
            push_record(text, place, record)?;
            push_crossings(text, players, crossings)
        }
        Err(refused) => push_refusal(text, refused.fault),
    }
}

// Makes the call of a record and tells what came of it. Answers the card that is then held, or none after a fault.
fn push_step<B: RuleBook>(
    heap: Global,
    text: &mut String,
    table: &mut Table<B>,
    card: Card,
    place: usize,
    record: Record,
) -> Result<Option<Card>, AllocError>
    ensures step { IfOk result (λ o. Stepped (B.meaning table.old.book) table.old.books (number_of card) place (view «record») (string_bytes text.old) (string_bytes text.new) (held table.new.books o)) }
    ensures same { table.new.book ≡ table.old.book }
{
    let players = table.books().players;
    let crossings = record_crossings(heap, table, &card, record)?;
    let made = make_record(table, card, place, record);
    push_made(text, place, record, players, &crossings, &made)?;
    Ok(made.ok())
}

// The records of a file from a place on, to the file's end or its first fault.
pub(crate) fn push_steps<B: RuleBook>(
    heap: Global,
    text: &mut String,
    table: &mut Table<B>,
    card: Card,
    file: &[u8],
    from: usize,
) -> Result<(), AllocError>
    ensures { OnOk result (Pushed (string_bytes text.old) (string_bytes text.new) (traced_from (B.meaning table.old.book) table.old.books (number_of card) file.now from)) }
{
    let mut card = card;
    for found in records_from(file, from) {
        match found {
            Ok((place, record)) => {
                let Some(held) = push_step(heap, text, table, card, place, record)? else {
                    return Ok(());
                };
                card = held;
            }
            Err(fault) => return push_refusal(text, fault),
        }
    }
    Ok(())
}
