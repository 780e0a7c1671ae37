//! From the bytes of a text of inputs to its inputs.

ghost use Rattle.std.specs.Prelude.{◌≡◌, ◌+◌, ◌≤◌, ◌<◌, ◌^◌, ◌++◌, ◌∷◌, ℕ, List, length, map, string_bytes, IfOk, Ok, Err, OnOk};
ghost use Rattle.dv_inputs.specs.Lines.{lines_of, without_return};
ghost use Rattle.dv_inputs.specs.Reading.{input_of, reading_after, reading_of, tested_line, with_line};
ghost use Rattle.dv_inputs.specs.Steps.{number_in};

use crate::error::{InputRefusal, InputRefusalNumber, InputsError};
use crate::fields::three_fields;
use crate::lines::{is_passed_over, split_line, without_return};
use crate::numbers::{time_in, value_in};
use crate::ports::{PortNumbers, number_of, port_numbers};
use dv_bag::{Input, Inputs};
use dv_time::Time;
use std::alloc::Global;

// The input in a line, for a run with this limit, after an input at the time `last`.
fn input_of(
    numbers: &PortNumbers<'_>,
    limit: u32,
    last: Time,
    line: &[u8],
) -> Result<Input, InputRefusalNumber>
    ensures { result ≡ input_of (number_in numbers.now) limit last line.now }
{
    let Some((time, port, value)) = three_fields(line) else {
        return Err(InputRefusalNumber::I1);
    };
    let Some(time) = time_in(time) else {
        return Err(InputRefusalNumber::I1);
    };
    let Some(port) = number_of(numbers, port) else {
        return Err(InputRefusalNumber::I2);
    };
    if time.is_before(last) {
        return Err(InputRefusalNumber::I3);
    }
    let Some(value) = value_in(value) else {
        return Err(InputRefusalNumber::I4);
    };
    if limit < time.micro {
        return Err(InputRefusalNumber::I5);
    }
    Ok(Input { time, port, value })
}

// The input in a line, which has to be UTF-8.
fn tested_line(
    numbers: &PortNumbers<'_>,
    limit: u32,
    last: Time,
    line: &[u8],
) -> Result<Input, InputRefusalNumber>
    ensures { result ≡ tested_line (number_in numbers.now) limit last line.now }
{
    match str::from_utf8(line) {
        Ok(_) => input_of(numbers, limit, last, line),
        Err(_) => Err(InputRefusalNumber::I1),
    }
}

// Adds the input of a line to those before it, unless the line is a comment or blank. `line` is its
// number.
fn read_line(
    numbers: &PortNumbers<'_>,
    limit: u32,
    inputs: &mut Inputs,
    bytes: &[u8],
    line: u64,
) -> Result<(), InputsError>
    ensures ok { OnOk result
        (with_line (number_in numbers.now) limit inputs.old bytes.now ≡ Ok inputs.new) }
    ensures refused { (r : InputRefusal) → result ≡ Err (InputsError.Refused r)
        → (r.line ≡ line)
        × (with_line (number_in numbers.now) limit inputs.old bytes.now ≡ Err r.number) }
{
    if is_passed_over(bytes) {
        return Ok(());
    }
    match tested_line(numbers, limit, inputs.last_time(), bytes) {
        Ok(input) => Ok(inputs.push(input)?),
        Err(number) => Err(InputsError::Refused(InputRefusal { number, line })),
    }
}

// Adds the inputs of all lines of a text.
fn read_lines(
    numbers: &PortNumbers<'_>,
    limit: u32,
    inputs: &mut Inputs,
    text: &[u8],
) -> Result<(), InputsError>
    ensures ok { OnOk result
        (reading_after (number_in numbers.now) limit inputs.old 1 (lines_of text.now)
        ≡ Ok inputs.new) }
    ensures refused { (r : InputRefusal) → result ≡ Err (InputsError.Refused r)
        → reading_after (number_in numbers.now) limit inputs.old 1 (lines_of text.now) ≡ Err r }
{
    let mut rest = text;
    let mut line: u64 = 0;
    while !rest.is_empty() {
        let (bytes, after) = split_line(rest);
        line += 1;
        if let Err(error) = read_line(numbers, limit, inputs, without_return(bytes), line) {
            return Err(error);
        }
        rest = after;
    }
    Ok(())
}

/// The inputs of a text, for a run with this microstep limit, when the root's input ports have
/// these names.
///
/// # Errors
///
/// `Refused` with the first refused line, counted from 1, and the least number that applies: `I1`
/// if the line is not UTF-8, does not have three fields, or its time is not a tick up to the
/// greatest in decimal digits, with or without a dot and a microstep up to the greatest limit; `I2`
/// if no port has its name; `I3` if its time is before that of the previous input; `I4` if its
/// value is not a number from -2^63 to 2^63 - 1; `I5` if its microstep is above the limit. `Memory`
/// if an allocation was refused.
pub fn read_inputs(
    alloc: Global,
    text: &[u8],
    ports: &[String],
    limit: u32,
) -> Result<Inputs, InputsError>
    requires { length ports.now ≤ 2 ^ 32 }
    ensures inputs { IfOk result
        (λ inputs. reading_of text.now (map string_bytes ports.now) limit ≡ Ok inputs) }
    ensures refused { (r : InputRefusal) → result ≡ Err (InputsError.Refused r)
        → reading_of text.now (map string_bytes ports.now) limit ≡ Err r }
{
    let numbers = port_numbers(alloc, ports)?;
    let mut inputs = Inputs::new(alloc);
    read_lines(&numbers, limit, &mut inputs, text)?;
    Ok(inputs)
}
