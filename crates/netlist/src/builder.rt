ghost use Rattle.std.specs.Prelude.{◌≡◌, ℕ, ◌+◌, ◌-◌, ◌*◌, ◌/◌, ◌%◌, ◌^◌, ◌<◌, ◌≤◌, ◌↔◌, ◌⊎◌, ◌==◌, ◌&&◌, nat_lt, bit_and, bit_or, bit_xor, true, false, if◌then◌else◌, [], ◌∷◌, ◌++◌, length, map, slice_get, IfOk, OnErr, IfSome, Some, None};
ghost use Rattle.netlist.specs.Netlists.{IsNet, driver_of, IsInputPort, IsOutputPort, IsHeader, IsWellMade, IsDriven, IsClocked, IsWaiting, IsWritten, WaitsForWrite, IsMem, IsModule, input_count, input_net, input_lines, is_input, is_register, IsSound, IsSoundLine, undriven, started, appended, with_driver, with_line, with_next, line_with, line_of, register_of, memory_with, write_of, with_memory, with_write};
ghost use Rattle.netlist.specs.Nets.{net_of, mem_of};
ghost use Rattle.netlist.specs.Runs.{Run, IsRun, NetHolds, Always};
ghost use Rattle.netlist.specs.Longer.{Extends, GrowsByOne};
ghost use Rattle.netlist.specs.Makers.{IsAppended, IsMade};
ghost use Rattle.netlist.specs.declared.line.Line.{Line};
ghost use Rattle.netlist.specs.declared.line.Memory.{Memory};

use crate::fault::NetFault;
use crate::line::{Equation, Line, Mem, MemWrite, Memory, Net, PortLine};
use crate::module::Module;
use av_base::{List, Text, Val};
use std::alloc::Global;
use std::marker::Model;

/// The most nets that a module has.
const NET_LIMIT: usize = 1 << 20;

/// The most memories that a module has.
const MEMORY_LIMIT: usize = 1 << 16;

/// A module that grows: an ordered list of equations, one for each net, and a list of memories.
///
/// Each maker appends one equation and keeps all that stand there. After a refusal the builder is unchanged.
/// A `Net` or `Mem` argument must be one of this builder.
pub struct Builder {
    name: Text,
    ports: List<PortLine>,
    lines: Vec<Line>,
    drivers: Vec<Option<u32>>,
    memories: Vec<Memory>,
}

/// By hand, so that what drops one calls this, and isn't followed through its fields.
impl Drop for Builder {
    fn drop(self) {
        let Builder {
            name: _,
            ports: _,
            lines: _,
            drivers: _,
            memories: _,
        } = self;
    }
}

impl Model for Builder {
    ghost use Rattle.netlist.specs.Netlists.{Netlist, IsWellMade};

    ghost Value = { Netlist };

    ghost view = { λ b. record
        { name = b.name; ports = b.ports; lines = b.lines.items; drivers = b.drivers.items; memories = b.memories.items } };

    ghost invariant = { λ b. IsWellMade
        (record
        { name = b.name; ports = b.ports; lines = b.lines.items; drivers = b.drivers.items; memories = b.memories.items }) };
}

fn count_inputs(ports: &[PortLine]) -> usize
    ensures { result ≡ input_count ports.now }
{
    ports.iter().filter(|port| !port.output).count()
}

/// The lines of the input nets.
fn lines_of_inputs(alloc: Global, ports: &[PortLine]) -> Result<Vec<Line>, NetFault>
    requires { length ports.now < 2 ^ 32 }
    ensures lines { IfOk result (λ v. v.items ≡ input_lines 0 ports.now) }
    ensures memory { OnErr result (result ≡ Err NetFault.NoMemory) }
{
    let mut lines = Vec::new(alloc);
    for (k, port) in ports.iter().enumerate() {
        if !port.output {
            lines.push(Line {
                width: port.width,
                equation: Equation::Input { port: k as u32 },
                waits: false,
            })?;
        }
    }
    Ok(lines)
}

/// The line with its next net, where it is a register's.
fn clocked(line: &Line, next: u32) -> Line
    ensures { result ≡ with_next line.now next }
{
    let mut equation = line.equation;
    if let Equation::Reg { reset, .. } = &line.equation {
        equation = Equation::Reg {
            reset: *reset,
            next,
        };
    }
    Line {
        width: line.width,
        equation,
        waits: false,
    }
}

/// The memory with its write.
fn written(memory: &Memory, write: MemWrite) -> Memory
    ensures { result ≡ record { width = memory.now.width; address_bits = memory.now.address_bits; write = Some write } }
{
    Memory {
        width: memory.width,
        address_bits: memory.address_bits,
        write: Some(write),
    }
}

/// No driver yet for any port.
fn no_drivers(alloc: Global, ports: &[PortLine]) -> Result<Vec<Option<u32>>, NetFault>
    ensures drivers { IfOk result (λ v. v.items ≡ map undriven ports.now) }
    ensures memory { OnErr result (result ≡ Err NetFault.NoMemory) }
{
    let mut drivers = Vec::new(alloc);
    for _port in ports {
        drivers.push(None)?;
    }
    Ok(drivers)
}

impl Builder {
    /// A module with its input nets and no output driven.
    pub fn new(alloc: Global, name: Text, ports: List<PortLine>) -> Result<Builder, NetFault>
        requires { IsHeader name ports }
        ensures started { IfOk result (λ b. b ≡ started name ports) }
        ensures well_made { IfOk result (λ b. IsWellMade b) }
        ensures clocked { IfOk result (λ b. IsClocked b) }
        ensures written { IfOk result (λ b. IsWritten b) }
        ensures undriven { IfOk result (λ b. (k : ℕ) → driver_of b k ≡ None) }
        ensures full { (result ≡ Err NetFault.TooManyNets) ↔ (2 ^ 20 < input_count ports) }
    {
        if count_inputs(ports.as_slice()) > NET_LIMIT {
            return Err(NetFault::TooManyNets);
        }
        let lines = lines_of_inputs(alloc, ports.as_slice())?;
        let drivers = no_drivers(alloc, ports.as_slice())?;
        Ok(Builder {
            name,
            ports,
            lines,
            drivers,
            memories: Vec::new(alloc),
        })
    }

    /// The net of an input port.
    pub fn input(&self, port: u32) -> Net
        requires { (w : ℕ) × IsInputPort self.now.ports port w }
        ensures net { IsNet self.now result }
        ensures number { result.number ≡ input_net self.now.ports port }
        ensures width { (w : ℕ) → IsInputPort self.now.ports port w → result.width ≡ w }
        ensures value { Always self.now (λ cycle. (cycle.net result.number < 2 ^ result.width)
            × (cycle.net result.number ≡ cycle.input port)) }
    {
        let ports = self.ports.as_slice();
        let number = count_inputs(&ports[..port as usize]);
        Net::new(number as u32, ports[port as usize].width)
    }

    /// The net's width in bits.
    pub fn width(&self, net: Net) -> u8
        requires { IsNet self.now net }
        ensures value { result ≡ net.width }
        ensures bounds { (1 ≤ result) × (result ≤ 128) }
    {
        self.lines[net.number() as usize].width
    }

    /// One more line.
    fn append(&mut self, width: u8, equation: Equation, waits: bool) -> Result<Net, NetFault>
        requires sound { IsSoundLine self.old.ports self.old.memories self.old.lines (length self.old.lines)
            (line_with width equation waits) }
        requires computed { is_input equation ≡ false }
        ensures line { IfOk result (λ n. (self.new ≡ appended self.old (line_with width equation waits))
            × (n ≡ net_of (length self.old.lines) width)) }
        ensures net { IfOk result (λ n. IsNet self.new n × (n.width ≡ width)) }
        ensures value { IfOk result (λ n. Always self.new (λ cycle. NetHolds self.new.lines cycle n.number
            (line_with width equation waits))) }
        ensures extends { Extends self.old self.new }
        ensures most { length self.new.lines ≤ length self.old.lines + 1 }
        ensures drivers { self.new.drivers ≡ self.old.drivers }
        ensures memories { self.new.memories ≡ self.old.memories }
        ensures waits { (n : ℕ) → IsWaiting self.old n → IsWaiting self.new n }
        ensures newly { (n : ℕ) → IsWaiting self.new n → IsWaiting self.old n ⊎ (waits ≡ true) × (n ≡ length self.old.lines) }
        ensures err { OnErr result (self.new ≡ self.old) }
        ensures full { (result ≡ Err NetFault.TooManyNets) ↔ (length self.old.lines ≡ 2 ^ 20) }
    {
        let number = self.lines.len();
        if number >= NET_LIMIT {
            return Err(NetFault::TooManyNets);
        }
        self.lines.push(Line {
            width,
            equation,
            waits,
        })?;
        Ok(Net::new(number as u32, width))
    }

    /// One more line, of no input and no register.
    fn append_computed(&mut self, width: u8, equation: Equation) -> Result<Net, NetFault>
        requires some_bit { 1 ≤ width }
        requires small { width ≤ 128 }
        requires sound { IsSound self.old.ports self.old.memories self.old.lines (length self.old.lines) width equation }
        requires computed { is_input equation ≡ false }
        requires unclocked { is_register equation ≡ false }
        ensures { IsAppended self.old self.new result width equation }
    {
        self.append(width, equation, false)
    }

    /// One more line, of the width of a net.
    fn append_like(&mut self, net: Net, equation: Equation) -> Result<Net, NetFault>
        requires net_is { IsNet self.old net }
        requires sound { IsSound self.old.ports self.old.memories self.old.lines (length self.old.lines) net.width equation }
        requires computed { is_input equation ≡ false }
        requires unclocked { is_register equation ≡ false }
        ensures { IsAppended self.old self.new result net.width equation }
    {
        let width = self.width(net);
        self.append_computed(width, equation)
    }

    /// A net that always has this value.
    pub fn constant(&mut self, value: Val) -> Result<Net, NetFault>
        ensures { IsMade self.old self.new result value.width (Equation.Constant value) (λ cycle. value.bits) }
    {
        self.append_computed(value.width(), Equation::Constant { value })
    }

    /// Bitwise and of two nets of one width.
    pub fn and(&mut self, a: Net, b: Net) -> Result<Net, NetFault>
        requires a_is { IsNet self.old a }
        requires b_is { IsNet self.old b }
        requires widths { a.width ≡ b.width }
        ensures { IsMade self.old self.new result a.width
            (Equation.And a.number b.number) (λ cycle. bit_and (cycle.net a.number) (cycle.net b.number)) }
    {
        self.append_like(
            a,
            Equation::And {
                a: a.number(),
                b: b.number(),
            },
        )
    }

    /// Bitwise or of two nets of one width.
    pub fn or(&mut self, a: Net, b: Net) -> Result<Net, NetFault>
        requires a_is { IsNet self.old a }
        requires b_is { IsNet self.old b }
        requires widths { a.width ≡ b.width }
        ensures { IsMade self.old self.new result a.width
            (Equation.Or a.number b.number) (λ cycle. bit_or (cycle.net a.number) (cycle.net b.number)) }
    {
        self.append_like(
            a,
            Equation::Or {
                a: a.number(),
                b: b.number(),
            },
        )
    }

    /// Bitwise exclusive or of two nets of one width.
    pub fn xor(&mut self, a: Net, b: Net) -> Result<Net, NetFault>
        requires a_is { IsNet self.old a }
        requires b_is { IsNet self.old b }
        requires widths { a.width ≡ b.width }
        ensures { IsMade self.old self.new result a.width
            (Equation.Xor a.number b.number) (λ cycle. bit_xor (cycle.net a.number) (cycle.net b.number)) }
    {
        self.append_like(
            a,
            Equation::Xor {
                a: a.number(),
                b: b.number(),
            },
        )
    }

    /// The sum of two nets of one width, without the carry out of the top.
    pub fn add(&mut self, a: Net, b: Net) -> Result<Net, NetFault>
        requires a_is { IsNet self.old a }
        requires b_is { IsNet self.old b }
        requires widths { a.width ≡ b.width }
        ensures { IsMade self.old self.new result a.width
            (Equation.Add a.number b.number) (λ cycle. (cycle.net a.number + cycle.net b.number) % 2 ^ a.width) }
    {
        self.append_like(
            a,
            Equation::Add {
                a: a.number(),
                b: b.number(),
            },
        )
    }

    /// The difference of two nets of one width, modulo 2 to the width.
    pub fn sub(&mut self, a: Net, b: Net) -> Result<Net, NetFault>
        requires a_is { IsNet self.old a }
        requires b_is { IsNet self.old b }
        requires widths { a.width ≡ b.width }
        ensures { IsMade self.old self.new result a.width
            (Equation.Sub a.number b.number) (λ cycle. (cycle.net a.number
            + (2 ^ a.width - cycle.net b.number)) % 2 ^ a.width) }
    {
        self.append_like(
            a,
            Equation::Sub {
                a: a.number(),
                b: b.number(),
            },
        )
    }

    /// One bit: whether two nets of one width are equal.
    pub fn eq(&mut self, a: Net, b: Net) -> Result<Net, NetFault>
        requires a_is { IsNet self.old a }
        requires b_is { IsNet self.old b }
        requires widths { a.width ≡ b.width }
        ensures { IsMade self.old self.new result 1
            (Equation.Eq a.number b.number) (λ cycle. if cycle.net a.number == cycle.net b.number then 1 else 0) }
    {
        self.append_computed(
            1,
            Equation::Eq {
                a: a.number(),
                b: b.number(),
            },
        )
    }

    /// One bit: whether the first of two nets of one width is the smaller, both read without a sign.
    pub fn less(&mut self, a: Net, b: Net) -> Result<Net, NetFault>
        requires a_is { IsNet self.old a }
        requires b_is { IsNet self.old b }
        requires widths { a.width ≡ b.width }
        ensures { IsMade self.old self.new result 1
            (Equation.Less a.number b.number) (λ cycle. if nat_lt (cycle.net a.number) (cycle.net b.number) then 1 else 0) }
    {
        self.append_computed(
            1,
            Equation::Less {
                a: a.number(),
                b: b.number(),
            },
        )
    }

    /// The bits of `a` above those of `b`.
    pub fn concat(&mut self, a: Net, b: Net) -> Result<Net, NetFault>
        requires a_is { IsNet self.old a }
        requires b_is { IsNet self.old b }
        requires widths { a.width + b.width ≤ 128 }
        ensures { IsMade self.old self.new result (a.width + b.width)
            (Equation.Concat a.number b.number) (λ cycle. cycle.net a.number * 2 ^ b.width + cycle.net b.number) }
    {
        let width = self.width(a) + self.width(b);
        self.append_computed(
            width,
            Equation::Concat {
                a: a.number(),
                b: b.number(),
            },
        )
    }

    /// Each bit turned.
    pub fn not(&mut self, a: Net) -> Result<Net, NetFault>
        requires a_is { IsNet self.old a }
        ensures { IsMade self.old self.new result a.width
            (Equation.Not a.number) (λ cycle. 2 ^ a.width - 1 - cycle.net a.number) }
    {
        self.append_like(a, Equation::Not { a: a.number() })
    }

    /// One bit: whether some bit is set.
    pub fn any(&mut self, a: Net) -> Result<Net, NetFault>
        requires a_is { IsNet self.old a }
        ensures { IsMade self.old self.new result 1 (Equation.Any a.number) (λ cycle. if cycle.net a.number == 0 then 0 else 1) }
    {
        self.append_computed(1, Equation::Any { a: a.number() })
    }

    /// `a` where the bit `s` is set, else `b`; these two have one width.
    pub fn mux(&mut self, s: Net, a: Net, b: Net) -> Result<Net, NetFault>
        requires s_is { IsNet self.old s }
        requires one_bit { s.width ≡ 1 }
        requires a_is { IsNet self.old a }
        requires b_is { IsNet self.old b }
        requires widths { a.width ≡ b.width }
        ensures { IsMade self.old self.new result a.width
            (Equation.Mux s.number a.number b.number) (λ cycle. if cycle.net s.number == 0 then cycle.net b.number
            else cycle.net a.number) }
    {
        self.append_like(
            a,
            Equation::Mux {
                s: s.number(),
                a: a.number(),
                b: b.number(),
            },
        )
    }

    /// The bits from `high` down to `low`.
    pub fn slice(&mut self, a: Net, high: u8, low: u8) -> Result<Net, NetFault>
        requires a_is { IsNet self.old a }
        requires order { low ≤ high }
        requires inside { high < a.width }
        ensures { IsMade self.old self.new result (high - low + 1)
            (Equation.Slice a.number high low) (λ cycle. cycle.net a.number / 2 ^ low % 2 ^ (high - low + 1)) }
    {
        let _inside = self.width(a);
        self.append_computed(
            high - low + 1,
            Equation::Slice {
                a: a.number(),
                high,
                low,
            },
        )
    }

    /// A register that begins at `reset`; its next net is to be set.
    pub fn reg(&mut self, reset: Val) -> Result<Net, NetFault>
        ensures line { IfOk result (λ n. (self.new ≡ appended self.old (register_of (length self.old.lines) reset))
            × (n ≡ net_of (length self.old.lines) reset.width)) }
        ensures net { IfOk result (λ n. IsNet self.new n × (n.width ≡ reset.width)) }
        ensures fits { IfOk result (λ n. Always self.new (λ cycle. cycle.net n.number < 2 ^ reset.width)) }
        ensures value { IfOk result (λ n. (run : Run) (cycles : ℕ) → IsRun self.new run cycles → 0 < cycles
            → run.net 0 n.number ≡ reset.bits) }
        ensures waits { IfOk result (λ n. IsWaiting self.new n.number) }
        ensures extends { Extends self.old self.new }
        ensures most { length self.new.lines ≤ length self.old.lines + 1 }
        ensures drivers { self.new.drivers ≡ self.old.drivers }
        ensures memories { self.new.memories ≡ self.old.memories }
        ensures still_wait { (n : ℕ) → IsWaiting self.old n → IsWaiting self.new n }
        ensures newly { (n : ℕ) → IsWaiting self.new n → IsWaiting self.old n ⊎ (n ≡ length self.old.lines) }
        ensures err { OnErr result (self.new ≡ self.old) }
        ensures full { (result ≡ Err NetFault.TooManyNets) ↔ (length self.old.lines ≡ 2 ^ 20) }
    {
        let next = self.lines.len();
        if next >= NET_LIMIT {
            return Err(NetFault::TooManyNets);
        }
        self.append(
            reset.width(),
            Equation::Reg {
                reset,
                next: next as u32,
            },
            true,
        )
    }

    /// Gives a register its next net, of its width.
    pub fn set_next(&mut self, register: Net, next: Net)
        requires register_is { IsNet self.old register }
        requires waits { IsWaiting self.old register.number }
        requires next_is { IsNet self.old next }
        requires widths { register.width ≡ next.width }
        ensures line { (line : Line) → slice_get self.old.lines register.number ≡ Some line
            → self.new ≡ with_line self.old register.number (with_next line next.number) }
        ensures value { (run : Run) (cycles : ℕ) → IsRun self.new run cycles → (c : ℕ) → c + 1 < cycles
            → run.net (c + 1) register.number ≡ run.net c next.number }
        ensures extends { Extends self.old self.new }
        ensures same_count { length self.new.lines ≡ length self.old.lines }
        ensures drivers { self.new.drivers ≡ self.old.drivers }
        ensures memories { self.new.memories ≡ self.old.memories }
        ensures still_wait { (n : ℕ) → (n ≡ register.number → ⊥) → IsWaiting self.old n → IsWaiting self.new n }
        ensures no_more_wait { (n : ℕ) → IsWaiting self.new n → IsWaiting self.old n × (n ≡ register.number → ⊥) }
    {
        let number = register.number() as usize;
        self.lines[number] = clocked(&self.lines[number], next.number());
    }

    /// A memory whose words have so many bits and whose addresses so many; it makes no net, and its write is to be set.
    pub fn memory(&mut self, width: u8, address_bits: u8) -> Result<Mem, NetFault>
        requires some_bit { 1 ≤ width }
        requires small { width ≤ 128 }
        requires some_address { 1 ≤ address_bits }
        requires few_addresses { address_bits ≤ 10 }
        ensures memory { IfOk result (λ m. (self.new ≡ with_memory self.old (memory_with width address_bits))
            × (m ≡ mem_of (length self.old.memories) width address_bits)) }
        ensures mem { IfOk result (λ m. IsMem self.new m) }
        ensures fits { IfOk result (λ m. Always self.new (λ cycle. (address : ℕ) → address < 2 ^ address_bits
            → cycle.cell m.number address < 2 ^ width)) }
        ensures waits { IfOk result (λ m. WaitsForWrite self.new m.number) }
        ensures extends { Extends self.old self.new }
        ensures lines { self.new.lines ≡ self.old.lines }
        ensures drivers { self.new.drivers ≡ self.old.drivers }
        ensures still_wait { (m : ℕ) → WaitsForWrite self.old m → WaitsForWrite self.new m }
        ensures newly { (m : ℕ) → WaitsForWrite self.new m → WaitsForWrite self.old m ⊎ (m ≡ length self.old.memories) }
        ensures err { OnErr result (self.new ≡ self.old) }
        ensures full { (result ≡ Err NetFault.TooManyNets) ↔ (length self.old.memories ≡ 2 ^ 16) }
    {
        let number = self.memories.len();
        if number >= MEMORY_LIMIT {
            return Err(NetFault::TooManyNets);
        }
        self.memories.push(Memory {
            width,
            address_bits,
            write: None,
        })?;
        Ok(Mem::new(number as u32, width, address_bits))
    }

    /// The width of a memory's words in bits.
    fn word_width(&self, mem: Mem) -> u8
        requires { IsMem self.now mem }
        ensures value { result ≡ mem.width }
        ensures bounds { (1 ≤ result) × (result ≤ 128) }
    {
        self.memories[mem.number() as usize].width
    }

    /// The word that a memory has at an address before the clock's edge.
    pub fn read_memory(&mut self, mem: Mem, address: Net) -> Result<Net, NetFault>
        requires mem_is { IsMem self.old mem }
        requires address_is { IsNet self.old address }
        requires widths { address.width ≡ mem.address_bits }
        ensures { IsMade self.old self.new result mem.width
            (Equation.Read mem.number address.number) (λ cycle. cycle.cell mem.number (cycle.net address.number)) }
    {
        let width = self.word_width(mem);
        self.append_computed(
            width,
            Equation::Read {
                memory: mem.number(),
                address: address.number(),
            },
        )
    }

    /// Gives a memory its write: where the bit `enable` is set, the clock's edge puts the word at the address.
    pub fn set_write(&mut self, mem: Mem, enable: Net, address: Net, word: Net)
        requires mem_is { IsMem self.old mem }
        requires waits { WaitsForWrite self.old mem.number }
        requires enable_is { IsNet self.old enable }
        requires one_bit { enable.width ≡ 1 }
        requires address_is { IsNet self.old address }
        requires address_width { address.width ≡ mem.address_bits }
        requires word_is { IsNet self.old word }
        requires word_width { word.width ≡ mem.width }
        ensures memory { (memory : Memory) → slice_get self.old.memories mem.number ≡ Some memory
            → self.new ≡ with_write self.old mem.number memory (write_of enable.number address.number word.number) }
        ensures value { (run : Run) (cycles : ℕ) → IsRun self.new run cycles → (c : ℕ) → c + 1 < cycles → (place : ℕ)
            → place < 2 ^ mem.address_bits
            → run.cell (c + 1) mem.number place
            ≡ (if (run.net c enable.number == 1) && (run.net c address.number == place) then run.net c word.number
            else run.cell c mem.number place) }
        ensures extends { Extends self.old self.new }
        ensures lines { self.new.lines ≡ self.old.lines }
        ensures drivers { self.new.drivers ≡ self.old.drivers }
        ensures still_wait { (m : ℕ) → (m ≡ mem.number → ⊥) → WaitsForWrite self.old m → WaitsForWrite self.new m }
        ensures no_more_wait { (m : ℕ) → WaitsForWrite self.new m → WaitsForWrite self.old m × (m ≡ mem.number → ⊥) }
    {
        let number = mem.number() as usize;
        self.memories[number] = written(
            &self.memories[number],
            MemWrite {
                enable: enable.number(),
                address: address.number(),
                word: word.number(),
            },
        );
    }

    /// Lets a net drive an output port.
    pub fn drive(&mut self, port: u32, net: Net)
        requires output { IsOutputPort self.old.ports port net.width }
        requires net_is { IsNet self.old net }
        requires undriven { driver_of self.old port ≡ None }
        ensures driven { self.new ≡ with_driver self.old port net.number }
        ensures driver { driver_of self.new port ≡ Some net.number }
        ensures memories { self.new.memories ≡ self.old.memories }
        ensures extends { Extends self.old self.new }
        ensures waits { (n : ℕ) → IsWaiting self.old n → IsWaiting self.new n }
        ensures no_more_wait { (n : ℕ) → IsWaiting self.new n → IsWaiting self.old n }
    {
        self.drivers[port as usize] = Some(net.number());
    }

    /// The module, which is whole: each output is driven, each register has its next net and each memory its write.
    pub fn finish(self) -> Module
        requires driven { IsDriven self }
        requires clocked { IsClocked self }
        requires written { IsWritten self }
        ensures same { result ≡ self }
        ensures module { IsModule result }
    {
        let Builder {
            name,
            ports,
            lines,
            drivers,
            memories,
        } = self;
        Module::of_parts(name, ports, lines, drivers, memories)
    }

    /// What a builder keeps.
    pub fn well_made(&self)
        ensures { IsWellMade self.now }
    {
        let _ = &self.lines;
    }
}
