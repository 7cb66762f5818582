ghost use Rattle.std.specs.Prelude.{◌≡◌, IfOk, string_bytes, OnOk};
ghost use Rattle.trace_text.specs.Pushed.{Pushed};
ghost use Rattle.game_trace.specs.Trace.{trace_of};

use crate::steps::push_steps;
use listing::push_record;
use replay::game::{Game, Opened};
use std::alloc::{AllocError, Global};
use trace_text::push_refusal;

fn push_trace(heap: Global, text: &mut String, file: &[u8]) -> Result<(), AllocError>
    ensures { OnOk result (Pushed (string_bytes text.old) (string_bytes text.new) (trace_of file.now)) }
{
    match Game::open(file) {
        Ok(Opened { game, record, next }) => {
            let Game { mut table, card } = game;
            push_record(text, 0, record)?;
            push_steps(heap, text, &mut table, card, file, next)
        }
        Err(fault) => push_refusal(text, fault),
    }
}

// A game file as text: each record with what crosses, and the fault that ends it. The only error is want of memory.
pub fn trace(heap: Global, file: &[u8]) -> Result<String, AllocError>
    ensures { IfOk result (λ s. string_bytes s ≡ trace_of file.now) }
{
    let mut text = String::new(heap);
    push_trace(heap, &mut text, file)?;
    Ok(text)
}
