// The call for hosts: one function, with the number as its result and line, length and offset through references. Crate `troscunel_c` exports it for C.
// `troscunel_call` requires nothing and promises number, line, length and offset of the definition's answer, and both buffers; proofs/OneAnswer has that two
// answers to one call are equal.
// Read specs/Exported for the contract, include/troscunel.h for what a host has to know.
#![tactic(auto)]

ghost use Rattle.meaning.specs.Call.{call as call_of};
ghost use Rattle.term.specs.Layout.{need_of};
ghost use Rattle.job.specs.Calling.{room_of, given};
ghost use Rattle.troscunel.specs.Exported.{Exports};

use job::call::call;

// The number of a call that has a report.
const RAN: u32 = 0;

// Text, budget, room figures, scratch in 64-bit words, report buffer; a slice is a pointer and a length.
pub fn troscunel_call(
    text: &[u8],
    budget: usize,
    pairs: usize,
    compounds: usize,
    goals: usize,
    scratch: &mut [u64],
    buffer: &mut [u8],
    line: &mut usize,
    length: &mut usize,
    offset: &mut usize,
) -> u32
    ensures { Exports
        (call_of need_of (given text.now budget (room_of pairs compounds goals) scratch.old buffer.old))
        result line.new length.new offset.new buffer.new scratch.new }
{
    match call(text, budget, pairs, compounds, goals, scratch, buffer) {
        Ok(n) => {
            *line = 0;
            *length = n;
            *offset = 0;
            RAN
        }
        Err(why) => {
            *line = why.line();
            *length = why.length();
            *offset = why.offset();
            why.number()
        }
    }
}
