//! The top call: the messages of a script are sent, and the codes of their replies are written.

ghost use Rattle.std.specs.Prelude.{◌≡◌, ◌≤◌, Ok, IfOk, IfErr, map, string_bytes};
ghost use Rattle.dns_edges.specs.Edges.{around};
ghost use Rattle.dns_update_client.specs.declared.status.UpdateStatus.TheVariants as status;
ghost use Rattle.dns_update_client.specs.Lines.{code_lines};
ghost use Rattle.dns_update_client.specs.World.{World};
ghost use Rattle.dns_update_client.specs.Steps.{LoadsScript, LoadsNoScript, Converses, IsRefused};
ghost use Rattle.dns_update_client.specs.Counts.{Counts};
ghost use Rattle.dns_update_client.specs.Ends.{Ends};
ghost use Rattle.dns_update_client.specs.Completeness.{Completes};
ghost use Rattle.dns_update_client.specs.Writing.{EndsWriting};

use crate::output::{put_codes, refuse};
use crate::settings::settings_of;
use crate::status::{UpdateStatus, after_writing};
use crate::submitting::submit;
use dns_edges::{Sink, Source, read_to_end};
use dns_io::OutOfMemory;
use dns_update_script::{Script, read_script};
use std::alloc::Global;

/// The greatest length of a script, in bytes.
const SCRIPT_BOUND: usize = 1_048_576;

/// What the server answered.
#[derive(Drop)]
struct Answered {
    /// The id of the first message.
    first_id: u16,
    /// The codes of the replies, in order.
    codes: Vec<u16>,
}

/// Does what the words of the command line say, and ends with a status: the script is read to its end, its messages are sent to
/// `output` one after another, the reply to each is read from `input`, and at the end a line `ID CODE` is written to `out` for each.
///
/// Nothing of the script is read before it is known that the words are legal, and nothing is sent of a script that has a line at
/// fault.
pub fn nsupdate<E: Source, R: Source, W: Sink, O: Sink>(
    alloc: Global,
    words: &Vec<String>,
    script: &mut E,
    input: &mut R,
    output: &mut W,
    out: &mut O,
) -> UpdateStatus
    ensures ends { let w : World = record {
      words = map string_bytes words.now.items;
      script = around E.source.told script.old script.new;
      input = around R.source.told input.old input.new;
      output = around W.sink.told output.old output.new;
      out = around O.sink.told out.old out.new;
    } in Ends w result × Completes w result × Counts O.sink out.old out.new w result }
    ensures later_script { (E.source.told script.old).faults ≤ (E.source.told script.new).faults }
    ensures later_input { (R.source.told input.old).faults ≤ (R.source.told input.new).faults }
    ensures later_output { (W.sink.told output.old).faults ≤ (W.sink.told output.new).faults }
    ensures later_out { (O.sink.told out.old).faults ≤ (O.sink.told out.new).faults }
{
    match converse(alloc, words, script, input, output) {
        Ok(answered) => finish(alloc, &answered, out),
        Err(status) => refuse(alloc, status, out),
    }
}

/// Reads the words and the script, and sends its messages.
fn converse<E: Source, R: Source, W: Sink>(
    alloc: Global,
    words: &Vec<String>,
    script: &mut E,
    input: &mut R,
    output: &mut W,
) -> Result<Answered, UpdateStatus>
    ensures ok { IfOk result (λ answered. Converses (map string_bytes words.now.items)
        (around E.source.told script.old script.new) (around R.source.told input.old input.new)
        (around W.sink.told output.old output.new) answered.first_id answered.codes.items) }
    ensures err { IfErr result (IsRefused (map string_bytes words.now.items)
        (around E.source.told script.old script.new) (around R.source.told input.old input.new)
        (around W.sink.told output.old output.new)) }
    ensures later_script { (E.source.told script.old).faults ≤ (E.source.told script.new).faults }
    ensures later_input { (R.source.told input.old).faults ≤ (R.source.told input.new).faults }
    ensures later_output { (W.sink.told output.old).faults ≤ (W.sink.told output.new).faults }
{
    let Some(settings) = settings_of(words.as_slice()) else {
        return Err(UpdateStatus::Usage);
    };
    let first_id = settings.first_id;
    let script = load_script(alloc, script)?;
    let Ok(messages) = script.messages(alloc, first_id) else {
        return Err(UpdateStatus::OutOfMemory);
    };
    let codes = submit(alloc, &messages, input, output)?;
    Ok(Answered { first_id, codes })
}

/// The script of a text, which is read to its end.
fn load_script<E: Source>(alloc: Global, source: &mut E) -> Result<Script, UpdateStatus>
    ensures ok { IfOk result (LoadsScript (around E.source.told source.old source.new)) }
    ensures err { IfErr result (LoadsNoScript (around E.source.told source.old source.new)) }
    ensures later { (E.source.told source.old).faults ≤ (E.source.told source.new).faults }
{
    let text = read_to_end(alloc, source, SCRIPT_BOUND)?;
    Ok(read_script(alloc, text.as_slice())?)
}

/// Writes the lines of the replies, and tells how the program ends.
fn finish<O: Sink>(alloc: Global, answered: &Answered, out: &mut O) -> UpdateStatus
    ensures ends { EndsWriting (around O.sink.told out.old out.new)
        (code_lines answered.now.first_id answered.now.codes.items) status.Ok result }
    ensures later { (O.sink.told out.old).faults ≤ (O.sink.told out.new).faults }
{
    after_writing(
        UpdateStatus::Ok,
        put_codes(alloc, answered.first_id, answered.codes.as_slice(), out),
    )
}
