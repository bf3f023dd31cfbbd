//! The scripts of the tests, and the texts that they ask for. No clause says what these are: proofs read none of their bytes.

/// A source joined to an equal sink.
pub fn wire() -> &'static [u8] {
    b"create_system one\nadd_instance gen gen\nadd_instance chk chk\nadd_connection gen.out chk.st\n"
}

pub fn source() -> &'static [u8] {
    b"package require -exact qsys 16.0
set_module_property NAME gen
add_interface out avalon_streaming start
add_interface_port out o_ready ready Input 1
add_interface_port out o_valid valid Output 1
add_interface_port out o_data data Output 8
add_interface_port out o_sop startofpacket Output 1
add_interface_port out o_eop endofpacket Output 1
"
}

pub fn sink() -> &'static [u8] {
    b"set_module_property NAME chk
add_interface st avalon_streaming end
add_interface_port st i_ready ready Output 1
add_interface_port st i_valid valid Input 1
add_interface_port st i_data data Input 8
add_interface_port st i_sop startofpacket Input 1
add_interface_port st i_eop endofpacket Input 1
"
}

pub fn three_beats() -> &'static [u8] {
    b"cycles 6\nbeat gen.out 11 0 0 s 0\nbeat gen.out 22 0 0 - 0\nbeat gen.out 33 0 0 e 0\nstall chk.st 010\n"
}

pub fn wire_text() -> &'static [u8] {
    b"module one_interconnect (
  input wire clk,
  input wire reset,
  output wire [0:0] gen$out$ready,
  input wire [0:0] gen$out$valid,
  input wire [7:0] gen$out$data,
  input wire [0:0] gen$out$startofpacket,
  input wire [0:0] gen$out$endofpacket,
  input wire [0:0] chk$st$ready,
  output wire [0:0] chk$st$valid,
  output wire [7:0] chk$st$data,
  output wire [0:0] chk$st$startofpacket,
  output wire [0:0] chk$st$endofpacket,
  output wire [0:0] chk$st$dropped
);
  wire [0:0] n0 = gen$out$valid;
  wire [7:0] n1 = gen$out$data;
  wire [0:0] n2 = gen$out$startofpacket;
  wire [0:0] n3 = gen$out$endofpacket;
  wire [0:0] n4 = chk$st$ready;
  wire [0:0] n5 = 1'h0;
  assign gen$out$ready = n4;
  assign chk$st$valid = n0;
  assign chk$st$data = n1;
  assign chk$st$startofpacket = n2;
  assign chk$st$endofpacket = n3;
  assign chk$st$dropped = n5;
endmodule
"
}

pub fn usage() -> &'static [u8] {
    b"usage: generate|check SYSTEM COMPONENT.. | simulate SYSTEM SCENARIO COMPONENT.. | replay VERILOG WAVES | campaign NUMBER SYSTEM COMPONENT.. | workload NUMBER | dump VERILOG WAVES | undump DUMP | bridge NUMBER SYSTEM BYTES COMPONENT.. | mux|demux NUMBER NUMBER NUMBER | gather NUMBER NUMBER NUMBER NUMBER\n"
}
