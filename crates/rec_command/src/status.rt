//! What a command ends with: the line of a fault, and the exit status.
ghost use Rattle.std.specs.Prelude.{◌≡◌, [], OnOk, IsOkUnless, decimal};
ghost use Rattle.std.specs.Option.{option_map_or};
ghost use Rattle.rec_select.specs.Taken.{Prints};
ghost use Rattle.rec_command.specs.Status.{Says, fault_line, line_of, status_of};

use itoa::Buffer;
use rec_select::put_parts;
use rec_text::Message;
use rec_tools::{Fault, Refusal, Reply, Sink};

/// Prints the line of a fault, cut where the sink fails. The result is the exit status; help, which is no reply, ends
/// well.
pub fn finish<W: Sink>(answer: &Result<Option<Reply>, Refusal>, err: &mut W) -> u8
    ensures status { result ≡ status_of answer.now }
    ensures line { Says W.contents W.failure_count err.old err.new (line_of answer.now) }
    ensures silent { OnOk answer.now (err.new ≡ err.old) }
{
    match answer {
        Ok(Some(Reply::Violated(_))) => 1,
        Ok(_) => 0,
        Err(refusal) => {
            let _ = put_line(err, refusal.fault());
            1
        }
    }
}

/// Prints `recu: `, the text of a fault and a newline.
fn put_line<W: Sink>(err: &mut W, fault: &Fault) -> Result<(), Fault>
    ensures printed { Prints W.contents W.failure_count err.old err.new (fault_line fault.now) result }
    ensures refusals { IsOkUnless result Fault.StoreFailed }
{
    let Message {
        before,
        number,
        after,
    } = fault.message();
    let mut buffer = Buffer::new();
    let digits = digits_of(number, &mut buffer);
    put_parts(
        err,
        &[
            b"recu: ",
            before.as_bytes(),
            digits.as_bytes(),
            after.as_bytes(),
            b"\n",
        ],
    )
}

/// The decimal digits of a number, where there is one.
fn digits_of(number: Option<usize>, buffer: &mut Buffer) -> &str
    ensures { result.now ≡ option_map_or decimal number [] }
{
    match number {
        Some(n) => buffer.format(n),
        None => "",
    }
}
