// The bench tool: reads layouts as text, and prints what a device would be asked for.
#![tactic(auto)]

mod report;

use crate::report::print_layouts;
use layouts::run_program;
use std::io;
use std::process::ExitCode;

// Whole, as it is printed, though the rehearsal's has some of its lines.
const USAGE: &str = "usage: bench < SCRIPT

Reads layouts from standard input and prints, for each, what the device would be
asked for, or why the layout is refused. Nothing is printed if a line can't be read.

  layout NAME [partially-bound]          begins a layout
  entry BINDING KIND ARRAY [STAGE ..]    an entry of it; an ARRAY of 0 is no array
  # ..                                   a comment, to the end of the line

KIND   sampler, sampled-image, storage-image, uniform-buffer,
       uniform-buffer-dynamic, storage-buffer, storage-buffer-dynamic,
       acceleration-structure or external-texture
STAGE  vertex, fragment, compute, task, mesh, ray-generation, miss, any-hit,
       closest-hit, or stage bits as a decimal number";

fn main(rt: HostRuntime) -> io::Result<ExitCode> {
    run_program(
        &rt,
        "bench",
        USAGE,
        |rt, layouts| Ok(print_layouts(rt, layouts)?),
    )
}
