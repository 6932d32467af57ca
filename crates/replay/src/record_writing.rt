//! Writing the record of a run.
ghost use Rattle.std.specs.Prelude.{◌≡◌, ◌≤◌, ◌++◌, ◌∷◌, [], IfOk, OnOk, string_bytes};
ghost use Rattle.std.specs.List.{All};
ghost use Rattle.replay.specs.Records.{entries_of};
ghost use Rattle.texts.specs.Forms.{line_of};
ghost use Rattle.replay.specs.RecordTexts.{draw_form, draws_text, pass_form, passes_text, record_text, register_text};

use run_outcome::{Draw, Pass, RunRecord};
use std::alloc::{AllocError, Global};
use texts::push_field;

fn push_draw(text: &mut String, draw: &Draw) -> Result<(), AllocError>
    ensures { OnOk result (string_bytes text.new ≡ string_bytes text.old ++ (line_of draw_form draw.now ++ 10 ∷ [])) }
{
    let (client, ticket, quorum) = *draw;
    text.push_str("draw")?;
    push_field(text, u64::from(client))?;
    push_field(text, ticket)?;
    push_field(text, quorum as u64)?;
    text.push('\n')
}

fn push_draws(text: &mut String, draws: &[Draw]) -> Result<(), AllocError>
    ensures { OnOk result (string_bytes text.new ≡ string_bytes text.old ++ draws_text draws.now) }
{
    for draw in draws {
        push_draw(text, draw)?;
    }
    Ok(())
}

fn push_pass(text: &mut String, pass: &Pass) -> Result<(), AllocError>
    ensures { OnOk result (string_bytes text.new ≡ string_bytes text.old ++ (line_of pass_form pass.now ++ 10 ∷ [])) }
{
    let (client, number) = *pass;
    text.push_str("pass")?;
    push_field(text, u64::from(client))?;
    push_field(text, number)?;
    text.push('\n')
}

fn push_passes(text: &mut String, passes: &[Pass]) -> Result<(), AllocError>
    ensures { OnOk result (string_bytes text.new ≡ string_bytes text.old ++ passes_text passes.now) }
{
    for pass in passes {
        push_pass(text, pass)?;
    }
    Ok(())
}

fn push_register(text: &mut String, register: u64) -> Result<(), AllocError>
    ensures { OnOk result (string_bytes text.new ≡ string_bytes text.old ++ register_text register) }
{
    write!(text, "register {register}\n")
}

/// Returns the text of the record of a run, in the order of its lists. How many messages were lost
/// is not written.
///
/// A client must be at most 63 and a quorum at most 4095, or the text could not be read. A text has
/// the draws of one plan alone, so the record must have none of a second plan. Fails only if it runs
/// out of memory.
pub fn write_record(alloc: Global, run: &RunRecord) -> Result<String, AllocError>
    requires draws { All (λ d. (d.0 ≤ 63) × (d.2 ≤ 4095)) run.now.draws.items }
    requires one_plan { run.now.draws2.items ≡ [] }
    requires passes { All (λ p. p.0 ≤ 63) run.now.passes.items }
    ensures { IfOk result (λ text. string_bytes text ≡ record_text (entries_of run.now)) }
{
    let mut text = "quorum-record 1\n".to_string(alloc)?;
    push_draws(&mut text, &run.draws)?;
    push_passes(&mut text, &run.passes)?;
    push_register(&mut text, run.register)?;
    Ok(text)
}
