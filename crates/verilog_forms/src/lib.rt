//! What the Verilog text of a module is, as forms that read it, and the laws of such texts.
#![tactic(auto)]

mod laws;
mod rule;

pub use laws::{
    assign_lines, clocked_lines, forms_judge, full_modules, header, input_lines, memory_lines,
    no_two_modules, port_lines, read_right_sides, read_texts, reads_whole_texts,
    refused_memory_lines, refused_right_sides, refused_texts, refused_wire_lines, register_lines,
    right_sides, texts_judge, too_many_nets, wire_lines, write_lines,
};
pub use rule::Rule;
