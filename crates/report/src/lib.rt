// The report on a stripe: which blocks are lost, and the plan of each, as text.
#![tactic(auto)]

ghost use Rattle.std.specs.Prelude.{◌≤◌, length};
ghost use Rattle.given.specs.Given.{Given};
ghost use Rattle.text.specs.Text.{refused_text};
ghost use Rattle.text.specs.Put.{Room, Put};
ghost use Rattle.losses.specs.Inner.{Written};
ghost use Rattle.report.specs.Report.{Follows, Report};

use groups::{Fault, Layout};
use plan::Refusal;
use text::Writer;

// A refusal, and nothing else.
fn refused(out: &mut [u8], number: u8) -> usize
    requires { Room (refused_text number) 0 out.old }
    ensures { Put (refused_text number) 0 out.old out.new result }
{
    let mut w = Writer { out, at: 0 };
    w.put_refused(number);
    w.at
}

// The report where the note is sound: `rest` is what follows it.
// Stays: that l is given is a clause and no type, as in `rows`.
#[tactic(auto, using(crate::proofs::Reports::refused_room, crate::proofs::Reports::layout_short))]
fn follow(rest: &[u8], l: Layout, out: &mut [u8]) -> usize
    requires given { Given l }
    requires in_bounds { 12288 ≤ length out.old }
    ensures { Written (Follows l rest.now) 12288 0 out.old out.new result }
{
    let n = l.k + l.r;
    if !input::whole(rest, n) {
        return refused(out, Refusal::Length.number());
    }
    let st = input::standing_in(rest);
    if !marks::none_from(st.lost, n) {
        return refused(out, Refusal::Marks.number());
    }
    let mut w = Writer { out, at: 0 };
    w.put_layout(l.k as u8, n as u8);
    losses::put_lines(&mut w, l, st, n);
    w.at
}

// Stays: 0 where there is no room, and no Option: `Report` and `report_unique` say so of the number.
// The text for an input. 12,288 bytes hold the longest one; with less room nothing is written, and 0 is answered.
pub fn report(input: &[u8], out: &mut [u8]) -> usize
    ensures { Report input.now out.old out.new result }
{
    if out.len() < 12288 {
        return 0;
    }
    if !input::readable(input) {
        return refused(out, Fault::Bounds.number());
    }
    let end = input::note_end(input);
    match note::read_note(&input[..end]) {
        Ok(l) => follow(&input[end..], l, out),
        Err(e) => refused(out, e.fault.number()),
    }
}
