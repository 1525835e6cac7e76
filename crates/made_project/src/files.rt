//! The files of the made project.
ghost use Rattle.std.specs.Prelude.{◌≡◌, IfOk, string_bytes};
ghost use Rattle.made_project.specs.Projects.{bench_text, config_text, made_files};

use crate::design::design;
use mcy_base::{Bytes, FileList, SourceFile, Text};
use std::alloc::{AllocError, Global};

/// The testbench: over 32 cycles it looks whether the output is ever other than 0.
const BENCH: &str = "module d_tb;
  reg clk;
  reg [2:0] a, b;
  wire [2:0] y;
  integer i, z;
  d dut(.clk(clk), .a(a), .b(b), .y(y));
  initial begin clk = 0; forever #5 clk = ~clk; end
  initial begin
    a = 0; b = 0; z = 0;
    for (i = 0; i < 32; i = i + 1) begin
      @(negedge clk);
      if (y != 0) z = z + 1;
      a = $random; b = i;
    end
    if (z > 0) $display(\"ALIVE\"); else $display(\"DEAD\");
    $finish;
  end
endmodule
";

/// What the project file says behind the seed.
const SETTINGS: &str = "conflicts 20000
cycles 40
tags COVERED UNCOVERED NOCHANGE EQGAP GIVENUP
[script]
read_verilog d.v
prep -top d
[files]
d.v
[test test_sim]
sim d_tb d_tb.v
pass ALIVE
fail DEAD
[test test_eq]
eq
[logic]
tb_okay = (result(\"test_sim\") == \"PASS\")
eq_word = result(\"test_eq\")
eq_okay = (eq_word == \"PASS\")
if eq_word == \"UNKNOWN\":
    tag(\"GIVENUP\")
elif tb_okay and not eq_okay:
    tag(\"UNCOVERED\")
elif not tb_okay and not eq_okay:
    tag(\"COVERED\")
elif tb_okay and eq_okay:
    tag(\"NOCHANGE\")
else:
    tag(\"EQGAP\")
";

/// The project file of a seed.
fn config(alloc: Global, seed: u64) -> Result<String, AllocError>
    ensures { IfOk result (λ text. string_bytes text ≡ config_text seed) }
{
    let settings = SETTINGS;
    format!(in alloc; "[options]\nsize 100\nseed {seed}\n{settings}")
}

/// The testbench.
fn bench(alloc: Global) -> Result<String, AllocError>
    ensures { IfOk result (λ text. string_bytes text ≡ bench_text) }
{
    String::from_str(alloc, BENCH)
}

/// A file of a name.
fn file(alloc: Global, name: &str, text: String) -> Result<SourceFile, AllocError>
    ensures { IfOk result (λ file. file ≡ record { name = name.now; bytes = string_bytes text }) }
{
    Ok(SourceFile {
        name: Text::copy(alloc, name)?,
        bytes: Bytes::from_vec(text.into_bytes()),
    })
}

/// The files of the project of a seed whose design has so many drawn cells: the project file, the design and the testbench.
pub fn made_files(alloc: Global, seed: u64, cells: u32) -> Result<FileList, AllocError>
    ensures { IfOk result (λ files. files ≡ made_files seed cells) }
{
    let mut files = FileList::from_vec(Vec::new(alloc));
    files.push(file(alloc, "config.mcy", config(alloc, seed)?)?)?;
    files.push(file(alloc, "d.v", design(alloc, seed, cells)?)?)?;
    files.push(file(alloc, "d_tb.v", bench(alloc)?)?)?;
    Ok(files)
}
