// Rehearsal: reads layouts as text, and asks the counting device for those that are accepted.
#![tactic(auto)]

mod on_device;
mod sample;

use crate::on_device::run_layouts;
use layouts::run_program;
use std::io;
use std::process::ExitCode;

const USAGE: &str = "usage: rehearsal < SCRIPT

Reads layouts from standard input, makes each accepted one on a counting device,
with a pool and a set, and prints each call and its answer. Nothing is printed if
a line can't be read.

  layout NAME [partially-bound]          begins a layout
  entry BINDING KIND ARRAY [STAGE ..]    an entry of it; an ARRAY of 0 is no array
  # ..                                   a comment, to the end of the line

KIND   sampler, sampled-image, storage-image, uniform-buffer,
       uniform-buffer-dynamic, storage-buffer, storage-buffer-dynamic,
       acceleration-structure or external-texture
STAGE  vertex, fragment, compute, task, mesh, ray-generation, miss, any-hit,
       closest-hit, or stage bits as a decimal number";

fn main(rt: HostRuntime) -> io::Result<ExitCode> {
    run_program(&rt, "rehearsal", USAGE, run_layouts)
}
