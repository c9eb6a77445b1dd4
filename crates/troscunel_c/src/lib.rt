// The exported call for C: `troscunel::troscunel_call` under its own name, with the same clause. A library for Rattle crates exports nothing.
// include/troscunel.h is its prototype; `hosts/library` builds it as target/staticlib/libtroscunel.a.
#![tactic(auto)]

ghost use Rattle.meaning.specs.Call.{call as call_of};
ghost use Rattle.term.specs.Layout.{need_of};
ghost use Rattle.job.specs.Calling.{room_of, given};
ghost use Rattle.troscunel.specs.Exported.{Exports};

// Text, budget, room figures, scratch in 64-bit words, report buffer; a slice is a pointer and a length.
#[unsafe(no_mangle)]
pub extern "C" fn troscunel_call(
    text: &[u8],
    budget: usize,
    pairs: usize,
    compounds: usize,
    goals: usize,
    scratch: &mut [u64],
    buffer: &mut [u8],
    line: &mut usize,
    length: &mut usize,
    offset: &mut usize,
) -> u32
    ensures { Exports
        (call_of need_of (given text.now budget (room_of pairs compounds goals) scratch.old buffer.old))
        result line.new length.new offset.new buffer.new scratch.new }
{
    troscunel::troscunel_call(
        text, budget, pairs, compounds, goals, scratch, buffer, line, length, offset,
    )
}
