//! The Verilog text of a module.
//!
//! Each line of the text states one thing: a port, a memory, a net with its equation, what a register or a memory takes
//! with the clock, or an output with the net that drives it.
#![tactic(auto)]

ghost use Rattle.std.specs.Prelude.{◌≡◌, ℕ, ◌+◌, ◌^◌, ◌≤◌, ◌<◌, ◌++◌, string_bytes, length, slice_get, OnOk, IfOk, Some, None, [], ◌∷◌, false, true, codes, decimal};
ghost use Rattle.netlist.specs.declared.line.Line.{Line};
ghost use Rattle.netlist.specs.Netlists.{IsModule, IsSound, IsInputPort, is_register, line_of, memory_of};
ghost use Rattle.av_base.specs.Word.{word};
ghost use Rattle.verilog_writer.specs.Worked.{one_register, one_register_text, one_memory, one_memory_text};
ghost use Rattle.verilog_writer.specs.Text.{hex_digit, hex_digits, constant_text, port_text, ports_text, header_text, name_of, infix_text, right_text, net_name, memory_name, memory_line, memories_text, wire_line, register_line, net_line, nets_text, clock_line, clocked_line, clocked_text, write_line, writes_text, assign_line, assigns_text, text_of};

use av_base::{Bytes, NoMemory, Val};
use netlist::{Equation, MemLine, Module, PortLine};
use std::alloc::Global;
use std::fmt::Write;

/// A number below 16 as a hexadecimal digit in lower case.
fn hex_digit(n: u8) -> char
    requires { n < 16 }
    ensures { result ≡ hex_digit n }
{
    if n < 10 {
        (b'0' + n) as char
    } else {
        (b'a' + (n - 10)) as char
    }
}

/// Appends the lowest `count` hexadecimal digits of a number, in lower case.
pub fn put_hex(text: &mut String, count: u8, number: u128) -> Result<(), NoMemory>
    ensures { OnOk result (string_bytes text.new ≡ string_bytes text.old ++ hex_digits count number) }
{
    if count == 0 {
        return Ok(());
    }
    put_hex(text, count - 1, number / 16)?;
    text.push(hex_digit((number % 16) as u8))?;
    Ok(())
}

fn put_constant(text: &mut String, value: Val) -> Result<(), NoMemory>
    ensures { OnOk result (string_bytes text.new ≡ string_bytes text.old ++ constant_text value.width value.bits) }
{
    let width = value.width();
    write!(text, "{width}'h")?;
    put_hex(text, (width + 3) / 4, value.bits())
}

fn put_port(text: &mut String, port: &PortLine) -> Result<(), NoMemory>
    requires { 1 ≤ port.now.width }
    ensures { OnOk result (string_bytes text.new ≡ string_bytes text.old ++ port_text port.now) }
{
    let direction = if port.output { "output" } else { "input" };
    let name = port.name.as_str();
    write!(text, ",\n  {direction} wire [{}:0] {name}", port.width - 1)?;
    Ok(())
}

fn put_header(text: &mut String, module: &Module) -> Result<(), NoMemory>
    requires { IsModule «module».now }
    ensures { OnOk result (string_bytes text.new ≡ string_bytes text.old ++ header_text «module».now) }
{
    let name = module.name();
    write!(
        text,
        "module {name} (\n  input wire clk,\n  input wire reset"
    )?;
    put_ports(text, module)?;
    text.push_str("\n);\n")?;
    Ok(())
}

fn put_ports(text: &mut String, module: &Module) -> Result<(), NoMemory>
    requires { IsModule «module».now }
    ensures { OnOk result (string_bytes text.new ≡ string_bytes text.old ++ ports_text «module».now.ports) }
{
    for port in module.ports() {
        put_port(text, port)?;
    }
    Ok(())
}

/// The line of a memory: the bits of its words, and its addresses up to the last.
fn put_memory(text: &mut String, number: u32, memory: &MemLine) -> Result<(), NoMemory>
    requires some_bit { 1 ≤ memory.now.width }
    requires few { memory.now.address_bits ≤ 10 }
    ensures { OnOk result (string_bytes text.new ≡ string_bytes text.old ++ memory_line number (memory_of memory.now)) }
{
    let high = memory.width - 1;
    let last = 2u32.pow(u32::from(memory.address_bits)) - 1;
    write!(text, "  reg [{high}:0] m{number} [0:{last}];\n")?;
    Ok(())
}

fn put_memories(text: &mut String, module: &Module) -> Result<(), NoMemory>
    requires { IsModule «module».now }
    ensures { OnOk result (string_bytes text.new ≡ string_bytes text.old ++ memories_text 0 «module».now.memories) }
{
    for number in 0..module.memory_count() {
        put_memory(text, number, &module.memory(number))?;
    }
    Ok(())
}

/// Two nets with an operator between them.
fn put_infix(text: &mut String, a: u32, operator: &str, b: u32) -> Result<(), NoMemory>
    ensures { OnOk result (string_bytes text.new ≡ string_bytes text.old ++ infix_text a operator.now b) }
{
    write!(text, "n{a} {operator} n{b}")?;
    Ok(())
}

fn put_concatenation(text: &mut String, a: u32, b: u32) -> Result<(), NoMemory>
    ensures { OnOk result
        (string_bytes text.new ≡ string_bytes text.old ++ (codes "{" ++ net_name a ++ codes ", " ++ net_name b ++ codes "}")) }
{
    write!(text, "{{n{a}, n{b}}}")?;
    Ok(())
}

fn put_prefix(text: &mut String, operator: &str, a: u32) -> Result<(), NoMemory>
    ensures { OnOk result (string_bytes text.new ≡ string_bytes text.old ++ (operator.now ++ net_name a)) }
{
    write!(text, "{operator}n{a}")?;
    Ok(())
}

fn put_choice(text: &mut String, s: u32, a: u32, b: u32) -> Result<(), NoMemory>
    ensures { OnOk result
        (string_bytes text.new
        ≡ string_bytes text.old ++ (net_name s ++ codes " ? " ++ net_name a ++ codes " : " ++ net_name b)) }
{
    write!(text, "n{s} ? n{a} : n{b}")?;
    Ok(())
}

fn put_slice(text: &mut String, a: u32, high: u8, low: u8) -> Result<(), NoMemory>
    ensures { OnOk result
        (string_bytes text.new
        ≡ string_bytes text.old ++ (net_name a ++ codes "[" ++ decimal high ++ codes ":" ++ decimal low ++ codes "]")) }
{
    write!(text, "n{a}[{high}:{low}]")?;
    Ok(())
}

fn put_read(text: &mut String, memory: u32, address: u32) -> Result<(), NoMemory>
    ensures { OnOk result
        (string_bytes text.new ≡ string_bytes text.old ++ (memory_name memory ++ codes "[" ++ net_name address ++ codes "]")) }
{
    write!(text, "m{memory}[n{address}]")?;
    Ok(())
}

fn put_input(text: &mut String, module: &Module, port: u32) -> Result<(), NoMemory>
    requires { (w : ℕ) × IsInputPort «module».now.ports port w }
    ensures { OnOk result (string_bytes text.new ≡ string_bytes text.old ++ name_of (slice_get «module».now.ports port)) }
{
    let name = module.ports()[port as usize].name.as_str();
    text.push_str(name)?;
    Ok(())
}

/// What stands on the right of a net's line.
fn put_right(text: &mut String, module: &Module, equation: &Equation) -> Result<(), NoMemory>
    requires { (net width : ℕ) × IsSound «module».now.ports «module».now.memories «module».now.lines net width equation.now }
    ensures { OnOk result (string_bytes text.new ≡ string_bytes text.old ++ right_text «module».now.ports equation.now) }
{
    match equation {
        Equation::Input { port } => put_input(text, module, *port),
        Equation::Constant { value } => put_constant(text, *value),
        Equation::And { a, b } => put_infix(text, *a, "&", *b),
        Equation::Or { a, b } => put_infix(text, *a, "|", *b),
        Equation::Xor { a, b } => put_infix(text, *a, "^", *b),
        Equation::Add { a, b } => put_infix(text, *a, "+", *b),
        Equation::Sub { a, b } => put_infix(text, *a, "-", *b),
        Equation::Eq { a, b } => put_infix(text, *a, "==", *b),
        Equation::Less { a, b } => put_infix(text, *a, "<", *b),
        Equation::Concat { a, b } => put_concatenation(text, *a, *b),
        Equation::Not { a } => put_prefix(text, "~", *a),
        Equation::Any { a } => put_prefix(text, "|", *a),
        Equation::Mux { s, a, b } => put_choice(text, *s, *a, *b),
        Equation::Slice { a, high, low } => put_slice(text, *a, *high, *low),
        Equation::Reg { .. } => Ok(()),
        Equation::Read { memory, address } => put_read(text, *memory, *address),
    }
}

fn put_wire(
    text: &mut String,
    module: &Module,
    net: u32,
    width: u8,
    equation: &Equation,
) -> Result<(), NoMemory>
    requires some_bit { 1 ≤ width }
    requires sound { (n w : ℕ) × IsSound «module».now.ports «module».now.memories «module».now.lines n w equation.now }
    ensures { OnOk result (string_bytes text.new ≡ string_bytes text.old ++ wire_line «module».now.ports net width equation.now) }
{
    write!(text, "  wire [{}:0] n{net} = ", width - 1)?;
    put_right(text, module, equation)?;
    text.push_str(";\n")?;
    Ok(())
}

fn put_register(text: &mut String, net: u32, width: u8) -> Result<(), NoMemory>
    requires { 1 ≤ width }
    ensures { OnOk result (string_bytes text.new ≡ string_bytes text.old ++ register_line net width) }
{
    write!(text, "  reg [{}:0] n{net};\n", width - 1)?;
    Ok(())
}

fn is_register(equation: &Equation) -> bool
    ensures { result ≡ is_register equation.now }
{
    matches!(equation, Equation::Reg { .. })
}

fn put_net(text: &mut String, module: &Module, net: u32) -> Result<(), NoMemory>
    requires whole { IsModule «module».now }
    requires inside { net < length «module».now.lines }
    ensures { (line : Line) → slice_get «module».now.lines net ≡ Some line
        → OnOk result (string_bytes text.new ≡ string_bytes text.old ++ net_line «module».now.ports net line) }
{
    let width = module.width(net);
    let equation = module.equation(net);
    if is_register(&equation) {
        put_register(text, net, width)
    } else {
        put_wire(text, module, net, width, &equation)
    }
}

fn put_nets(text: &mut String, module: &Module) -> Result<(), NoMemory>
    requires { IsModule «module».now }
    ensures { OnOk result (string_bytes text.new ≡ string_bytes text.old ++ nets_text «module».now.ports 0 «module».now.lines) }
{
    for net in 0..module.net_count() {
        put_net(text, module, net)?;
    }
    Ok(())
}

fn put_clock(text: &mut String, net: u32, reset: Val, next: u32) -> Result<(), NoMemory>
    ensures { OnOk result (string_bytes text.new ≡ string_bytes text.old ++ clock_line net reset.width reset.bits next) }
{
    write!(text, "  always @(posedge clk) if (reset) n{net} <= ")?;
    put_constant(text, reset)?;
    write!(text, "; else n{net} <= n{next};\n")?;
    Ok(())
}

/// The clocked line of a net, where it is a register.
fn put_clocked(text: &mut String, module: &Module, net: u32) -> Result<(), NoMemory>
    requires { net < length «module».now.lines }
    ensures { (line : Line) → slice_get «module».now.lines net ≡ Some line
        → OnOk result (string_bytes text.new ≡ string_bytes text.old ++ clocked_line net line.equation) }
{
    let equation = module.equation(net);
    if let Equation::Reg { reset, next } = &equation {
        put_clock(text, net, *reset, *next)?;
    }
    Ok(())
}

fn put_clocked_lines(text: &mut String, module: &Module) -> Result<(), NoMemory>
    ensures { OnOk result (string_bytes text.new ≡ string_bytes text.old ++ clocked_text 0 «module».now.lines) }
{
    for net in 0..module.net_count() {
        put_clocked(text, module, net)?;
    }
    Ok(())
}

fn put_write(text: &mut String, number: u32, memory: &MemLine) -> Result<(), NoMemory>
    ensures { OnOk result
        (string_bytes text.new
        ≡ string_bytes text.old
        ++ write_line number (record { enable = memory.now.enable; address = memory.now.address; word = memory.now.word })) }
{
    let (enable, address, word) = (memory.enable, memory.address, memory.word);
    write!(
        text,
        "  always @(posedge clk) if (n{enable}) m{number}[n{address}] <= n{word};\n"
    )?;
    Ok(())
}

/// What the clock does to each memory.
fn put_writes(text: &mut String, module: &Module) -> Result<(), NoMemory>
    ensures { OnOk result (string_bytes text.new ≡ string_bytes text.old ++ writes_text 0 «module».now.memories) }
{
    for number in 0..module.memory_count() {
        put_write(text, number, &module.memory(number))?;
    }
    Ok(())
}

fn put_assign(text: &mut String, name: &str, net: u32) -> Result<(), NoMemory>
    ensures { OnOk result
        (string_bytes text.new
        ≡ string_bytes text.old ++ (codes "  assign " ++ name.now ++ codes " = " ++ net_name net ++ codes ";\n")) }
{
    write!(text, "  assign {name} = n{net};\n")?;
    Ok(())
}

fn put_assigns(text: &mut String, module: &Module) -> Result<(), NoMemory>
    requires { IsModule «module».now }
    ensures { OnOk result
        (string_bytes text.new ≡ string_bytes text.old ++ assigns_text «module».now.ports «module».now.drivers) }
{
    for (k, port) in module.ports().iter().enumerate() {
        if port.output {
            put_assign(text, port.name.as_str(), module.driver(k as u32))?;
        }
    }
    Ok(())
}

/// Writes the text of a module.
pub fn write_module(alloc: Global, module: &Module) -> Result<Bytes, NoMemory>
    ensures { IfOk result (λ bytes. bytes ≡ text_of «module».now) }
{
    module.well_made();
    let mut text = String::new(alloc);
    put_header(&mut text, module)?;
    put_memories(&mut text, module)?;
    put_nets(&mut text, module)?;
    put_clocked_lines(&mut text, module)?;
    put_writes(&mut text, module)?;
    put_assigns(&mut text, module)?;
    text.push_str("endmodule\n")?;
    Ok(Bytes::from(text))
}

/// A module of one register between an input and an output.
pub fn module_is_spelled()
    ensures { text_of one_register ≡ one_register_text }
{}

/// A module of one memory, which an input writes at the address of another and an output reads there.
pub fn memory_is_spelled()
    ensures { text_of one_memory ≡ one_memory_text }
{}

/// A line of each kind.
pub fn lines_are_spelled()
    ensures input { net_line (record { name = codes "a$i$d"; width = 8; output = false } ∷ []) 0 (line_of 8 (Equation.Input 0))
        ≡ codes "  wire [7:0] n0 = a$i$d;\n" }
    ensures constant { net_line [] 1 (line_of 8 (Equation.Constant (word 8 165))) ≡ codes "  wire [7:0] n1 = 8'ha5;\n" }
    ensures and { net_line [] 12 (line_of 8 (Equation.And 2 11)) ≡ codes "  wire [7:0] n12 = n2 & n11;\n" }
    ensures or { net_line [] 3 (line_of 8 (Equation.Or 1 2)) ≡ codes "  wire [7:0] n3 = n1 | n2;\n" }
    ensures xor { net_line [] 3 (line_of 8 (Equation.Xor 1 2)) ≡ codes "  wire [7:0] n3 = n1 ^ n2;\n" }
    ensures sum { net_line [] 3 (line_of 8 (Equation.Add 1 2)) ≡ codes "  wire [7:0] n3 = n1 + n2;\n" }
    ensures difference { net_line [] 3 (line_of 8 (Equation.Sub 1 2)) ≡ codes "  wire [7:0] n3 = n1 - n2;\n" }
    ensures equal { net_line [] 3 (line_of 1 (Equation.Eq 1 2)) ≡ codes "  wire [0:0] n3 = n1 == n2;\n" }
    ensures less { net_line [] 3 (line_of 1 (Equation.Less 1 2)) ≡ codes "  wire [0:0] n3 = n1 < n2;\n" }
    ensures concatenation { net_line [] 3 (line_of 16 (Equation.Concat 1 2)) ≡ codes "  wire [15:0] n3 = {n1, n2};\n" }
    ensures complement { net_line [] 3 (line_of 8 (Equation.Not 1)) ≡ codes "  wire [7:0] n3 = ~n1;\n" }
    ensures any { net_line [] 3 (line_of 1 (Equation.Any 1)) ≡ codes "  wire [0:0] n3 = |n1;\n" }
    ensures choice { net_line [] 3 (line_of 8 (Equation.Mux 0 1 2)) ≡ codes "  wire [7:0] n3 = n0 ? n1 : n2;\n" }
    ensures slice { net_line [] 3 (line_of 4 (Equation.Slice 1 6 3)) ≡ codes "  wire [3:0] n3 = n1[6:3];\n" }
    ensures register { net_line [] 3 (line_of 8 (Equation.Reg (word 8 165) 4)) ≡ codes "  reg [7:0] n3;\n" }
    ensures clocked { clocked_line 3 (Equation.Reg (word 8 165) 4)
        ≡ codes "  always @(posedge clk) if (reset) n3 <= 8'ha5; else n3 <= n4;\n" }
    ensures memory { memory_line 12 (memory_of (record { width = 8; address_bits = 10; enable = 1; address = 2; word = 3 }))
        ≡ codes "  reg [7:0] m12 [0:1023];\n" }
    ensures read { net_line [] 3 (line_of 8 (Equation.Read 12 1)) ≡ codes "  wire [7:0] n3 = m12[n1];\n" }
    ensures write { write_line 12 (record { enable = 1; address = 2; word = 3 })
        ≡ codes "  always @(posedge clk) if (n1) m12[n2] <= n3;\n" }
    ensures output { assign_line (record { name = codes "a$i$q"; width = 8; output = true }) (Some 3)
        ≡ codes "  assign a$i$q = n3;\n" }
{}

/// A constant has a digit for each four bits of its width or part of four.
pub fn constants_are_spelled()
    ensures bit { constant_text 1 0 ≡ codes "1'h0" }
    ensures five_bits { constant_text 5 19 ≡ codes "5'h13" }
    ensures leading_zeros { constant_text 16 10 ≡ codes "16'h000a" }
    ensures widest { constant_text 128 (2 ^ 127 + 191) ≡ codes "128'h800000000000000000000000000000bf" }
{}
