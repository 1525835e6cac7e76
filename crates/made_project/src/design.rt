//! The design: a register of three bits, two inputs, and a chain of nets, each of two nets in front of it.
ghost use Rattle.std.specs.Prelude.{◌≡◌, ◌≤◌, ◌<◌, ◌++◌, IfOk, OnOk, string_bytes};
ghost use Rattle.made_project.specs.Designs.{design_text, end_text, generator, net_line, net_lines, operator_text};

use rand_core::SeedableRng;
use rand_core::utils::NextWord;
use rand_pcg::Lcg128Xsl64;
use std::alloc::{AllocError, Global};

/// What stands in front of the drawn nets.
const HEAD: &str = "module d(input clk, input [2:0] a, input [2:0] b, output [2:0] y);
  reg [2:0] r;
  wire [2:0] n0 = a ^ r;
  wire [2:0] n1 = b + r;
";

/// The design of a seed with so many drawn nets.
pub(crate) fn design(alloc: Global, seed: u64, cells: u32) -> Result<String, AllocError>
    ensures { IfOk result (λ text. string_bytes text ≡ design_text seed cells) }
{
    let mut text = String::from_str(alloc, HEAD)?;
    add_nets(&mut text, seed, cells)?;
    add_end(&mut text, u64::from(cells) + 1)?;
    Ok(text)
}

/// Adds the lines of so many nets, from number 2 on, by the words of a seed.
fn add_nets(text: &mut String, seed: u64, cells: u32) -> Result<(), AllocError>
    ensures { OnOk result (string_bytes text.new ≡ string_bytes text.old ++ net_lines (generator seed) 2 cells) }
{
    let mut words = Lcg128Xsl64::seed_from_u64(seed);
    for cell in 0..cells {
        add_net(text, u64::from(cell) + 2, words.next_word())?;
    }
    Ok(())
}

/// Adds the line of a net. By the word it has two nets in front of it, and an operator.
fn add_net(text: &mut String, net: u64, word: u64) -> Result<(), AllocError>
    requires { 0 < net }
    ensures { OnOk result (string_bytes text.new ≡ string_bytes text.old ++ net_line net word) }
{
    let left = word % net;
    let right = word / 65_536 % net;
    let operator = operator_text(word / 4_294_967_296 % 5);
    writeln!(text, "  wire [2:0] n{net} = n{left} {operator} n{right};")
}

/// An operator by its number.
fn operator_text(number: u64) -> &'static str
    ensures { result.now ≡ operator_text number }
{
    match number {
        0 => "+",
        1 => "-",
        2 => "&",
        3 => "|",
        _ => "^",
    }
}

/// Adds what stands behind the nets, of which this is the last.
fn add_end(text: &mut String, last: u64) -> Result<(), AllocError>
    ensures { OnOk result (string_bytes text.new ≡ string_bytes text.old ++ end_text last) }
{
    write!(
        text,
        "  assign y = n{last};\n  always @(posedge clk) r <= n{last};\nendmodule\n"
    )
}
