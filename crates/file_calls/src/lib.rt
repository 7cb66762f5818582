// The calls that the records of a game file ask for, each with the card of its round.
#![tactic(auto)]

ghost use Rattle.std.specs.Prelude.{◌≡◌, ◌++◌, IfOk, OnOk};
ghost use Rattle.entries.specs.Entry.{view};
ghost use Rattle.replay.specs.Calls.{call_of};
ghost use Rattle.file_calls.specs.Calls.{card_then, listed, calls_from, file_calls};
ghost use Rattle.file_calls.specs.Laws.{LivesOfFiles};

use entries::record::Record;
use gamefile::records::records_from;
use ledger::call::Call;
use std::alloc::{AllocError, Global};

// The call of a record, made with a card of this number. An open is no call of a table that is there, so this is no From.
pub fn call_of(card: u16, record: Record) -> Option<Call>
    ensures { result ≡ call_of card (view «record») }
{
    match record {
        Record::Open { .. } => None,
        Record::Sell {
            seat,
            company,
            tenths,
        } => Some(Call::Sell {
            card,
            seat,
            company,
            tenths,
        }),
        Record::Buy {
            seat,
            company,
            source,
            par_space,
        } => Some(Call::Buy {
            card,
            seat,
            company,
            source,
            par: u16::from(par_space),
        }),
        Record::End { seat } => Some(Call::End { card, seat }),
        Record::Close => Some(Call::Close { card }),
        Record::Bill { company, amount } => Some(Call::Bill {
            card,
            company,
            amount,
        }),
        Record::Payout {
            company,
            mode,
            revenue,
        } => Some(Call::Payout {
            card,
            company,
            mode,
            revenue,
        }),
        Record::Train { company, kind } => Some(Call::Train {
            card,
            company,
            kind,
        }),
        Record::Done { company } => Some(Call::Done { card, company }),
        Record::Reopen => Some(Call::Reopen { card }),
    }
}

// Close and reopen trade the card for that of the next round.
fn next_card(card: u16, record: Record) -> u16
    ensures { result ≡ card_then card (view «record») }
{
    match record {
        Record::Close | Record::Reopen => card.saturating_add(1),
        _ => card,
    }
}

// The calls of all records up to the file's end or the first that is no record; the only error is want of memory.
pub fn calls_of(heap: Global, file: &[u8]) -> Result<Vec<Call>, AllocError>
    ensures calls { IfOk result (λ v. v.items ≡ file_calls file.now) }
    ensures lives { LivesOfFiles }
{
    let mut calls = Vec::new(heap);
    let mut card: u16 = 1;
    for found in records_from(file, 0) {
        let Ok((_, record)) = found else {
            break;
        };
        calls.extend(call_of(card, record))?;
        card = next_card(card, record);
    }
    Ok(calls)
}
