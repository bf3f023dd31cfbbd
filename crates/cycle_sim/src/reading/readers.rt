//! Which nets are evaluated anew when something changes.

ghost use Rattle.std.specs.Prelude.{◌≡◌, ◌+◌, ◌<◌, ℕ, [], length, replicate, slice_get, Some, IfOk, OnOk};
ghost use Rattle.netlist.specs.Netlists.{IsModule};
ghost use Rattle.cycle_sim.specs.Readers.{AreMemoryReaders, AreNetReaders, AreReaders, AreStale, HasBesides, StayStale, block_count, list_at, operands_of};

use av_base::{List, NoMemory};
use netlist::{Equation, Module};
use std::alloc::Global;
use std::marker::Model;

/// How many neighbours are a block, which is evaluated as one.
pub const BLOCK: u32 = 8;

/// How many blocks a module has. The last may have no net.
pub fn block_count(module: &Module) -> u32
    ensures { result ≡ block_count «module».now }
{
    module.net_count() / BLOCK + 1
}

/// Lists of blocks, by the numbers of nets or of memories.
#[derive(Drop)]
pub struct BlockLists {
    lists: Vec<List<u32>>,
}

impl Model for BlockLists {
    ghost use Rattle.std.specs.Prelude.{ℕ, List as Sequence};

    ghost Value = { Sequence (Sequence ℕ) };

    ghost view = { λ b. b.lists.items };
}

impl BlockLists {
    /// So many lists, and nothing in them.
    fn blank(alloc: Global, count: u32) -> Result<BlockLists, NoMemory>
        ensures { IfOk result (λ lists. lists ≡ replicate count []) }
    {
        let mut lists = Vec::new(alloc);
        'lists: for _ in 0..count {
            lists.push(List::new(alloc))?;
        }
        Ok(BlockLists { lists })
    }

    /// Adds a block to a list, unless it was the last to be added there.
    fn add(&mut self, number: u32, block: u32) -> Result<(), NoMemory>
        requires { number < length self.old }
        ensures { OnOk result (HasBesides self.old self.new number block) }
    {
        if self.list(number).last() != Some(&block) {
            self.lists[number as usize].push(block)?;
        }
        Ok(())
    }

    /// The blocks of a list.
    pub fn list(&self, number: u32) -> &[u32]
        requires { number < length self.now }
        ensures { result.now ≡ list_at self.now number }
    {
        self.lists[number as usize].as_slice()
    }
}

/// The nets that an equation reads. Where they are fewer than three, some stand here more than once.
#[derive(Clone, Copy)]
struct Operands {
    first: u32,
    second: u32,
    third: u32,
}

impl Operands {
    fn one(a: u32) -> Operands
        ensures { result ≡ record { first = a; second = a; third = a } }
    {
        Operands {
            first: a,
            second: a,
            third: a,
        }
    }

    fn two(a: u32, b: u32) -> Operands
        ensures { result ≡ record { first = a; second = b; third = b } }
    {
        Operands {
            first: a,
            second: b,
            third: b,
        }
    }
}

fn operands_of(equation: Equation) -> Option<Operands>
    ensures { result ≡ operands_of equation }
{
    match equation {
        Equation::Input { .. } => None,
        Equation::Constant { .. } => None,
        Equation::And { a, b } => Some(Operands::two(a, b)),
        Equation::Or { a, b } => Some(Operands::two(a, b)),
        Equation::Xor { a, b } => Some(Operands::two(a, b)),
        Equation::Add { a, b } => Some(Operands::two(a, b)),
        Equation::Sub { a, b } => Some(Operands::two(a, b)),
        Equation::Eq { a, b } => Some(Operands::two(a, b)),
        Equation::Less { a, b } => Some(Operands::two(a, b)),
        Equation::Concat { a, b } => Some(Operands::two(a, b)),
        Equation::Not { a } => Some(Operands::one(a)),
        Equation::Any { a } => Some(Operands::one(a)),
        Equation::Mux { s, a, b } => Some(Operands {
            first: s,
            second: a,
            third: b,
        }),
        Equation::Slice { a, .. } => Some(Operands::one(a)),
        Equation::Reg { .. } => None,
        Equation::Read { address, .. } => Some(Operands::one(address)),
    }
}

/// Adds a net's block to the lists of the nets that it reads.
fn add_net(lists: &mut BlockLists, module: &Module, net: u32) -> Result<(), NoMemory>
    requires module { IsModule «module».now }
    requires net_is { net < length «module».now.lines }
    requires lists { AreNetReaders «module».now lists.old net }
    ensures { OnOk result (AreNetReaders «module».now lists.new (net + 1)) }
{
    if let Some(operands) = operands_of(module.equation(net)) {
        lists.add(operands.first, net / BLOCK)?;
        lists.add(operands.second, net / BLOCK)?;
        lists.add(operands.third, net / BLOCK)?;
    }
    Ok(())
}

fn net_readers(alloc: Global, module: &Module) -> Result<BlockLists, NoMemory>
    ensures { IfOk result (λ lists. AreNetReaders «module».now lists (length «module».now.lines)) }
{
    module.well_made();
    let mut lists = BlockLists::blank(alloc, module.net_count())?;
    for net in 0..module.net_count() {
        add_net(&mut lists, module, net)?;
    }
    Ok(lists)
}

/// Adds a net's block to the list of the memory that it reads a word of.
fn add_reading_net(lists: &mut BlockLists, module: &Module, net: u32) -> Result<(), NoMemory>
    requires module { IsModule «module».now }
    requires net_is { net < length «module».now.lines }
    requires lists { AreMemoryReaders «module».now lists.old net }
    ensures { OnOk result (AreMemoryReaders «module».now lists.new (net + 1)) }
{
    if let Equation::Read { memory, .. } = module.equation(net) {
        lists.add(memory, net / BLOCK)?;
    }
    Ok(())
}

fn memory_readers(alloc: Global, module: &Module) -> Result<BlockLists, NoMemory>
    ensures { IfOk result (λ lists. AreMemoryReaders «module».now lists (length «module».now.lines)) }
{
    module.well_made();
    let mut lists = BlockLists::blank(alloc, module.memory_count())?;
    for net in 0..module.net_count() {
        add_reading_net(&mut lists, module, net)?;
    }
    Ok(lists)
}

/// For each net, and for each memory, the blocks of nets that read it.
#[derive(Drop)]
pub struct Readers {
    pub of_nets: BlockLists,
    pub of_memories: BlockLists,
}

impl Readers {
    pub fn new(alloc: Global, module: &Module) -> Result<Readers, NoMemory>
        ensures { IfOk result (λ readers. AreReaders «module».now readers.of_nets readers.of_memories) }
    {
        Ok(Readers {
            of_nets: net_readers(alloc, module)?,
            of_memories: memory_readers(alloc, module)?,
        })
    }
}

/// Makes blocks stale.
pub fn mark(blocks: &[u32], stale: &mut [bool])
    requires { (j block : ℕ) → slice_get blocks.now j ≡ Some block → block < length stale.old }
    ensures stay { StayStale stale.old stale.new }
    ensures stale { AreStale stale.new blocks.now }
{
    for block in blocks {
        stale[*block as usize] = true;
    }
}
