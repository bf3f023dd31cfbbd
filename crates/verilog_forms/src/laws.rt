//! What holds of every text. The functions do nothing; their contracts are the laws.

ghost use Rattle.std.specs.Prelude.{◌≡◌, ◌⊎◌, ℕ, ◌^◌, ◌<◌, ◌≤◌, ◌++◌, List, [], true, false, codes, length, slice_get, Bool, Some, None};
ghost use Rattle.av_base.specs.declared.value.Val.{Val};
ghost use Rattle.netlist.specs.declared.line.Equation.{Equation};
ghost use Rattle.netlist.specs.declared.line.Line.{Line};
ghost use Rattle.netlist.specs.declared.line.Memory.{Memory};
ghost use Rattle.netlist.specs.declared.line.PortLine.{PortLine};
ghost use Rattle.netlist.specs.declared.line.MemWrite.{MemWrite};
ghost use Rattle.netlist.specs.Names.{IsPortName};
ghost use Rattle.netlist.specs.Netlists.{Netlist, IsHeader, IsModule, IsSoundMemory, IsValue, IsWriteOf, started, width_at, line_of, memory_with, is_input, is_register};
ghost use Rattle.verilog_writer.specs.Text.{text_of, header_text, port_text, right_text, wire_line, register_line, net_line, memory_line, clock_line, write_line, assign_line};
ghost use Rattle.verilog_forms.specs.declared.rule.Rule.TheVariants.{OtherByte, Name, Width, Spelling, NotThere, Bounds, Depth, Order, AfterEnd, TooManyNets};
ghost use Rattle.verilog_forms.specs.declared.rule.Rule.{Rule};
ghost use Rattle.verilog_forms.specs.Forms.{Form, ends_hole, Reads, HasFault, IsJudged};
ghost use Rattle.verilog_forms.specs.RightSides.{Here, IsRightSide, right_form};
ghost use Rattle.verilog_forms.specs.WireLines.{wire_form, Behind, IsWire};
ghost use Rattle.verilog_forms.specs.RegisterLines.{register_form, untold};
ghost use Rattle.verilog_forms.specs.MemoryLines.{memory_form};
ghost use Rattle.verilog_forms.specs.Headers.{port_form, header_form, IsNextPort};
ghost use Rattle.verilog_forms.specs.InputLines.{input_form, IsInputAt};
ghost use Rattle.verilog_forms.specs.ClockedLines.{clock_form, write_form, assign_form};
ghost use Rattle.verilog_forms.specs.WholeTexts.{is_net_line, inputs_form, module_form, declared_text};
ghost use Rattle.verilog_forms.specs.Worked.{IsReadAs, IsRefused, IsRefusedLine, IsRefusedMemory, IsReadWhole, IsRefusedText, idle, one_register, one_write, four_nets, full_form, IsCrowded};

/// No bytes are the text of two modules.
pub fn no_two_modules()
    ensures { (one other : Netlist) → IsModule one → IsModule other → text_of one ≡ text_of other → one ≡ other }
{}

/// A form reads a text or tells its first fault, never both, in one way.
pub fn forms_judge()
    ensures of_right_sides { (form : Form Equation) → IsJudged form }
    ensures of_lines { (form : Form Line) → IsJudged form }
    ensures of_memories { (form : Form Memory) → IsJudged form }
    ensures of_ports { (form : Form PortLine) → IsJudged form }
    ensures of_writes { (form : Form MemWrite) → IsJudged form }
    ensures of_outputs { (form : Form ℕ) → IsJudged form }
    ensures of_texts { (form : Form Netlist) → IsJudged form }
{}

/// The form of a right side reads exactly the right sides that are sound, those of a module's nets among them.
pub fn right_sides()
    ensures read { (ports : List PortLine) (memories : List Memory) (lines : List Line) (n w : ℕ) (e : Equation) (rest : List ℕ)
        → Here memories lines n w → IsRightSide ports memories lines n w e → ends_hole rest ≡ true
        → Reads (right_form memories lines n w) (right_text ports e ++ rest) e rest }
    ensures sound { (ports : List PortLine) (memories : List Memory) (lines : List Line) (n w : ℕ) (e : Equation)
        (text rest : List ℕ)
        → Here memories lines n w → Reads (right_form memories lines n w) text e rest
        → (text ≡ right_text ports e ++ rest) × IsRightSide ports memories lines n w e }
    ensures of_modules { (one : Netlist) → IsModule one → (n : ℕ) (line : Line) (rest : List ℕ)
        → slice_get one.lines n ≡ Some line → is_input line.equation ≡ false → is_register line.equation ≡ false
        → ends_hole rest ≡ true
        → Reads (right_form one.memories one.lines n line.width) (right_text one.ports line.equation ++ rest) line.equation rest }
{}

/// The form of a module's header reads exactly the headers that a module may have.
pub fn header()
    ensures read { (name : List ℕ) (ports : List PortLine) (rest : List ℕ) → IsHeader name ports
        → Reads header_form (header_text (started name ports) ++ rest) (started name ports) rest }
    ensures sound { (one : Netlist) (text rest : List ℕ) → Reads header_form text one rest
        → (one ≡ started one.name one.ports) × (text ≡ header_text one ++ rest) × IsHeader one.name one.ports }
{}

/// The form of a port's line reads exactly the lines of ports that may stand behind the others.
pub fn port_lines()
    ensures read { (ports : List PortLine) (port : PortLine) (rest : List ℕ) → IsNextPort ports port → ends_hole rest ≡ true
        → Reads (port_form ports) (port_text port ++ rest) port rest }
    ensures sound { (ports : List PortLine) (port : PortLine) (text rest : List ℕ) → Reads (port_form ports) text port rest
        → (text ≡ port_text port ++ rest) × IsNextPort ports port }
{}

/// The form of an input net's line reads exactly the line of the input port that is due.
pub fn input_lines()
    ensures read { (ports : List PortLine) (n k : ℕ) (port : PortLine) (rest : List ℕ) → n < 2 ^ 64 → IsInputAt ports k port
        → Reads (input_form n k port) (wire_line ports n port.width (Equation.Input k) ++ rest)
        (line_of port.width (Equation.Input k)) rest }
    ensures sound { (ports : List PortLine) (n k : ℕ) (port : PortLine) (line : Line) (text rest : List ℕ)
        → slice_get ports k ≡ Some port → Reads (input_form n k port) text line rest
        → (line ≡ line_of port.width (Equation.Input k)) × (text ≡ wire_line ports n port.width (Equation.Input k) ++ rest) }
{}

/// The form of a wire's line reads exactly the lines of sound wires, those of a module's nets among them.
pub fn wire_lines()
    ensures read { (ports : List PortLine) (memories : List Memory) (lines : List Line) (n : ℕ) (line : Line) (rest : List ℕ)
        → Behind memories lines n → IsWire ports memories lines n line
        → Reads (wire_form memories lines n) (wire_line ports n line.width line.equation ++ rest) line rest }
    ensures sound { (ports : List PortLine) (memories : List Memory) (lines : List Line) (n : ℕ) (line : Line)
        (text rest : List ℕ)
        → Behind memories lines n → Reads (wire_form memories lines n) text line rest
        → (text ≡ wire_line ports n line.width line.equation ++ rest) × IsWire ports memories lines n line }
    ensures of_modules { (one : Netlist) → IsModule one → (n : ℕ) (line : Line) (rest : List ℕ)
        → slice_get one.lines n ≡ Some line → is_input line.equation ≡ false → is_register line.equation ≡ false
        → Reads (wire_form one.memories one.lines n) (net_line one.ports n line ++ rest) line rest }
{}

/// The form of a register's line reads exactly the lines of registers, those of a module's among them.
pub fn register_lines()
    ensures read { (n w : ℕ) (rest : List ℕ) → n < 2 ^ 64 → 1 ≤ w → w ≤ 128
        → Reads (register_form n) (register_line n w ++ rest) (untold n w) rest }
    ensures sound { (n : ℕ) (line : Line) (text rest : List ℕ) → Reads (register_form n) text line rest
        → (w : ℕ) × (1 ≤ w) × (w ≤ 128) × (line ≡ untold n w) × (text ≡ register_line n w ++ rest) }
    ensures of_modules { (one : Netlist) → IsModule one → (n : ℕ) (line : Line) (rest : List ℕ)
        → slice_get one.lines n ≡ Some line → is_register line.equation ≡ true
        → Reads (register_form n) (net_line one.ports n line ++ rest) (untold n line.width) rest }
{}

/// The form of a memory's line reads exactly the lines of memories, those of a module's among them.
pub fn memory_lines()
    ensures read { (lines : List Line) (m : ℕ) (memory : Memory) (rest : List ℕ) → m < 2 ^ 64 → IsSoundMemory lines memory
        → Reads (memory_form m) (memory_line m memory ++ rest) (memory_with memory.width memory.address_bits) rest }
    ensures sound { (lines : List Line) (m : ℕ) (memory : Memory) (text rest : List ℕ) → Reads (memory_form m) text memory rest
        → IsSoundMemory lines memory × (memory.write ≡ None) × (text ≡ memory_line m memory ++ rest) }
    ensures of_modules { (one : Netlist) → IsModule one → (m : ℕ) (memory : Memory) (rest : List ℕ)
        → slice_get one.memories m ≡ Some memory
        → Reads (memory_form m) (memory_line m memory ++ rest) (memory_with memory.width memory.address_bits) rest }
{}

/// The form of a register's clocked line reads exactly the line of the register that is due.
pub fn clocked_lines()
    ensures read { (memories : List Memory) (lines : List Line) (n w : ℕ) (reset : Val) (next : ℕ) (rest : List ℕ)
        → length lines < 2 ^ 64 → n < length lines → IsValue reset w → width_at lines next ≡ Some w
        → Reads (clock_form memories lines n w) (clock_line n reset.width reset.bits next ++ rest)
        (line_of w (Equation.Reg reset next)) rest }
    ensures sound { (memories : List Memory) (lines : List Line) (n w : ℕ) (line : Line) (text rest : List ℕ)
        → length lines < 2 ^ 64 → 1 ≤ w → w ≤ 128 → Reads (clock_form memories lines n w) text line rest
        → (reset : Val) × (next : ℕ) × IsValue reset w × (width_at lines next ≡ Some w)
        × (line ≡ line_of w (Equation.Reg reset next)) × (text ≡ clock_line n reset.width reset.bits next ++ rest) }
{}

/// The form of a memory's clocked line reads exactly the line of the memory that is due.
pub fn write_lines()
    ensures read { (memories : List Memory) (lines : List Line) (m : ℕ) (memory : Memory) (write : MemWrite) (rest : List ℕ)
        → length lines < 2 ^ 64 → length memories < 2 ^ 64 → m < length memories → IsWriteOf lines memory write
        → Reads (write_form memories lines m memory) (write_line m write ++ rest) write rest }
    ensures sound { (memories : List Memory) (lines : List Line) (m : ℕ) (memory : Memory) (write : MemWrite) (text rest : List ℕ)
        → length lines < 2 ^ 64 → length memories < 2 ^ 64 → Reads (write_form memories lines m memory) text write rest
        → (text ≡ write_line m write ++ rest) × IsWriteOf lines memory write }
{}

/// The form of an output's line reads exactly the line of the output that is due.
pub fn assign_lines()
    ensures read { (memories : List Memory) (lines : List Line) (assigned : Bool) (port : PortLine) (net : ℕ) (rest : List ℕ)
        → length lines < 2 ^ 64 → IsPortName port.name → port.output ≡ true → width_at lines net ≡ Some port.width
        → Reads (assign_form memories lines assigned port) (assign_line port (Some net) ++ rest) net rest }
    ensures sound { (memories : List Memory) (lines : List Line) (assigned : Bool) (port : PortLine) (net : ℕ)
        (text rest : List ℕ)
        → length lines < 2 ^ 64 → port.output ≡ true → Reads (assign_form memories lines assigned port) text net rest
        → (text ≡ assign_line port (Some net) ++ rest) × (width_at lines net ≡ Some port.width) }
{}

/// The form of a text reads a text to its end exactly where that is the text of a module, with 2^20 nets at most.
pub fn reads_whole_texts()
    ensures read { (one : Netlist) → IsModule one → Reads module_form (text_of one) one [] }
    ensures sound { (one : Netlist) (text rest : List ℕ) → Reads module_form text one rest
        → IsModule one × (text ≡ text_of one) × (rest ≡ []) }
{}

/// Each text is that of one module or has one first fault, never both.
pub fn texts_judge()
    ensures either { (text : List ℕ)
        → ((one : Netlist) × IsModule one × (text ≡ text_of one))
        ⊎ ((at : ℕ) × (rule : Rule) × HasFault module_form text at rule) }
    ensures never_both { (one : Netlist) (at : ℕ) (rule : Rule) → IsModule one → ¬ HasFault module_form (text_of one) at rule }
    ensures one_fault { (text : List ℕ) (at place : ℕ) (rule other : Rule) → HasFault module_form text at rule
        → HasFault module_form text place other → (at ≡ place) × (rule ≡ other) }
{}

/// There is no room for a net exactly where a net's line begins behind the lines of 2^20 nets.
pub fn too_many_nets()
    ensures met { (one : Netlist) (rest : List ℕ) → IsModule one → length one.lines ≡ 2 ^ 20 → is_net_line rest ≡ true
        → HasFault module_form (declared_text one ++ rest) (length (declared_text one)) TooManyNets }
    ensures sound { (text : List ℕ) (at : ℕ) → HasFault module_form text at TooManyNets
        → (one : Netlist) × (rest : List ℕ) × (length one.lines ≡ 2 ^ 20) × (text ≡ declared_text one ++ rest)
        × (at ≡ length (declared_text one)) × (is_net_line rest ≡ true) }
{}

/// Right sides that are read.
pub fn read_right_sides()
    ensures and { IsReadAs 8 (codes "n0 & n1;\n") (Equation.And 0 1) (codes ";\n") }
    ensures slice { IsReadAs 4 (codes "n0[6:3];\n") (Equation.Slice 0 6 3) (codes ";\n") }
    ensures choice { IsReadAs 8 (codes "n2 ? n0 : n1;\n") (Equation.Mux 2 0 1) (codes ";\n") }
    ensures concatenation { IsReadAs 9 (codes "{n2, n0};\n") (Equation.Concat 2 0) (codes ";\n") }
    ensures word { IsReadAs 8 (codes "m0[n3];\n") (Equation.Read 0 3) (codes ";\n") }
{}

/// Right sides that a rule refuses, at the place of their first fault.
pub fn refused_right_sides()
    ensures byte_at_the_begin { IsRefused 8 (codes "x0;\n") 0 OtherByte }
    ensures unknown_sign { IsRefused 8 (codes "n0 * n1;\n") 3 OtherByte }
    ensures one_equals_sign { IsRefused 1 (codes "n0 = n1;\n") 4 OtherByte }
    ensures nothing { IsRefused 8 [] 0 OtherByte }
    ensures width_before_one_equals_sign { IsRefused 8 (codes "n0 = n1;\n") 3 Width }
    ensures width_of_first { IsRefused 8 (codes "n2 & n1;\n") 3 Width }
    ensures width_of_second { IsRefused 8 (codes "n0 & n2;\n") 5 Width }
    ensures width_of_sum { IsRefused 8 (codes "{n0, n2};\n") 5 Width }
    ensures width_of_test { IsRefused 8 (codes "n0 ? n0 : n1;\n") 3 Width }
    ensures any_on_wide_net { IsRefused 8 (codes "|n0;\n") 0 Width }
    ensures width_of_memory { IsRefused 1 (codes "m0[n3];\n") 1 Width }
    ensures number_of_65_digits { IsRefused 8
        (codes "~n10000000000000000000000000000000000000000000000000000000000000000;\n") 1 NotThere }
    ensures width_of_address { IsRefused 8 (codes "m0[n2];\n") 3 Width }
    ensures width_of_constant { IsRefused 8 (codes "4'h0;\n") 0 Width }
    ensures leading_zero { IsRefused 8 (codes "n00 & n1;\n") 0 Spelling }
    ensures name_for_operand { IsRefused 8 (codes "n0$x;\n") 0 Spelling }
    ensures upper_case_digits { IsRefused 8 (codes "8'hAB;\n") 3 Spelling }
    ensures large_constant { IsRefused 3 (codes "3'hf;\n") 3 Spelling }
    ensures end_at_operand { IsRefused 8 (codes "~") 1 Spelling }
    ensures own_number { IsRefused 8 (codes "n0 & n4;\n") 5 NotThere }
    ensures missing_memory { IsRefused 8 (codes "m1[n3];\n") 1 NotThere }
    ensures high_bound { IsRefused 8 (codes "n0[8:1];\n") 3 Bounds }
    ensures length_of_slice { IsRefused 8 (codes "n0[7:1];\n") 5 Bounds }
{}

/// Lines of wires that a rule refuses, at the place of their first fault.
pub fn refused_wire_lines()
    ensures width_above_128 { IsRefusedLine (codes "  wire [128:0] n4 = ~n0;\n") 8 Width }
    ensures leading_zero_in_width { IsRefusedLine (codes "  wire [07:0] n4 = ~n0;\n") 8 Spelling }
    ensures no_blank_before_name { IsRefusedLine (codes "  wire [7:0]n4 = ~n0;\n") 12 OtherByte }
    ensures another_number { IsRefusedLine (codes "  wire [7:0] n5 = ~n0;\n") 14 Spelling }
    ensures own_number_on_the_right { IsRefusedLine (codes "  wire [7:0] n4 = ~n4;\n") 19 NotThere }
    ensures no_line_feed { IsRefusedLine (codes "  wire [7:0] n4 = ~n0;") 22 OtherByte }
{}

/// Lines of memories that a rule refuses, at the place of their first fault.
pub fn refused_memory_lines()
    ensures another_memory { IsRefusedMemory (codes "  reg [7:0] m0 [0:7];\n") 13 Spelling }
    ensures seven_words { IsRefusedMemory (codes "  reg [7:0] m1 [0:6];\n") 18 Depth }
    ensures one_word { IsRefusedMemory (codes "  reg [7:0] m1 [0:0];\n") 18 Depth }
    ensures too_many_words { IsRefusedMemory (codes "  reg [7:0] m1 [0:2047];\n") 18 Depth }
    ensures width_above_128 { IsRefusedMemory (codes "  reg [128:0] m1 [0:7];\n") 7 Width }
    ensures register { IsRefusedMemory (codes "  reg [7:0] n1;\n") 12 OtherByte }
{}

/// Whole texts that are read, and their modules.
pub fn read_texts()
    ensures no_port { IsReadWhole
        (codes "module idle_interconnect (\n  input wire clk,\n  input wire reset\n);\nendmodule\n") idle }
    ensures one_register { IsReadWhole
        (codes "module t_interconnect (\n  input wire clk,\n  input wire reset,\n  input wire [7:0] a$i$d,\n  output wire [7:0] b$i$q\n);\n  wire [7:0] n0 = a$i$d;\n  reg [7:0] n1;\n  always @(posedge clk) if (reset) n1 <= 8'ha5; else n1 <= n0;\n  assign b$i$q = n1;\nendmodule\n") one_register }
    ensures one_write { IsReadWhole
        (codes "module t_interconnect (\n  input wire clk,\n  input wire reset,\n  input wire [0:0] a$i$d,\n  input wire [2:0] b$i$d,\n  output wire [0:0] c$i$q\n);\n  reg [0:0] m0 [0:7];\n  wire [0:0] n0 = a$i$d;\n  wire [2:0] n1 = b$i$d;\n  wire [0:0] n2 = m0[n1];\n  always @(posedge clk) if (n0) m0[n1] <= n0;\n  assign c$i$q = n2;\nendmodule\n") one_write }
{}

/// Whole texts that a rule refuses, at the place of their first fault.
pub fn refused_texts()
    ensures cut_in_the_header { IsRefusedText (codes "module idle_interconnect (\n  i") 30 OtherByte }
    ensures no_last_line_feed { IsRefusedText
        (codes "module t_interconnect (\n  input wire clk,\n  input wire reset,\n  input wire [7:0] a$i$d,\n  output wire [7:0] b$i$q\n);\n  wire [7:0] n0 = a$i$d;\n  reg [7:0] n1;\n  always @(posedge clk) if (reset) n1 <= 8'ha5; else n1 <= n0;\n  assign b$i$q = n1;\nendmodule") 251 OtherByte }
    ensures no_suffix { IsRefusedText (codes "module t_connect (\n") 7 Name }
    ensures repeated_port { IsRefusedText
        (codes "module t_interconnect (\n  input wire clk,\n  input wire reset,\n  input wire [7:0] a$i$d,\n  output wire [7:0] a$i$d\n);\n") 108 Name }
    ensures port_without_dollar { IsRefusedText
        (codes "module t_interconnect (\n  input wire clk,\n  input wire reset,\n  input wire [7:0] data\n);\n") 81 Name }
    ensures register_for_an_input { IsRefusedText
        (codes "module t_interconnect (\n  input wire clk,\n  input wire reset,\n  input wire [7:0] a$i$d\n);\n  reg [7:0] n0;\n") 103 Name }
    ensures another_port_than_the_next { IsRefusedText
        (codes "module t_interconnect (\n  input wire clk,\n  input wire reset,\n  input wire [7:0] a$i$d,\n  input wire [7:0] b$i$d\n);\n  wire [7:0] n0 = b$i$d;\n") 134 Name }
    ensures width_of_an_input { IsRefusedText
        (codes "module t_interconnect (\n  input wire clk,\n  input wire reset,\n  input wire [7:0] a$i$d\n);\n  wire [3:0] n0 = a$i$d;\n") 108 Width }
    ensures clocked_line_for_an_input { IsRefusedText
        (codes "module t_interconnect (\n  input wire clk,\n  input wire reset,\n  input wire [7:0] a$i$d\n);\n  always") 92 OtherByte }
    ensures input_left_out { IsRefusedText
        (codes "module t_interconnect (\n  input wire clk,\n  input wire reset,\n  input wire [7:0] a$i$d\n);\nendmodule\n") 90 OtherByte }
    ensures net_number_left_out { IsRefusedText
        (codes "module t_interconnect (\n  input wire clk,\n  input wire reset,\n  input wire [7:0] a$i$d\n);\n  wire [7:0] n0 = a$i$d;\n  wire [7:0] n2 = ~n0;\n") 129 Spelling }
    ensures later_operand { IsRefusedText
        (codes "module t_interconnect (\n  input wire clk,\n  input wire reset,\n  output wire [0:0] a$b$valid\n);\n  wire [0:0] n0 = ~n1;\n  wire [0:0] n1 = 1'h0;\n  assign a$b$valid = n0;\nendmodule\n") 114 NotThere }
    ensures slice_above_the_net { IsRefusedText
        (codes "module t_interconnect (\n  input wire clk,\n  input wire reset,\n  input wire [7:0] a$i$d\n);\n  wire [7:0] n0 = a$i$d;\n  wire [0:0] n1 = n0[8:8];\n") 136 Bounds }
    ensures six_words { IsRefusedText
        (codes "module t_interconnect (\n  input wire clk,\n  input wire reset\n);\n  reg [7:0] m0 [0:5];\n") 82 Depth }
    ensures memory_behind_a_net { IsRefusedText
        (codes "module t_interconnect (\n  input wire clk,\n  input wire reset,\n  input wire [7:0] a$i$d\n);\n  wire [7:0] n0 = a$i$d;\n  reg [7:0] m0 [0:7];\n") 127 OtherByte }
    ensures register_not_clocked { IsRefusedText
        (codes "module t_interconnect (\n  input wire clk,\n  input wire reset,\n  input wire [7:0] a$i$d\n);\n  wire [7:0] n0 = a$i$d;\n  reg [7:0] n1;\nendmodule\n") 131 OtherByte }
    ensures another_register { IsRefusedText
        (codes "module t_interconnect (\n  input wire clk,\n  input wire reset,\n  input wire [7:0] a$i$d\n);\n  wire [7:0] n0 = a$i$d;\n  reg [7:0] n1;\n  reg [7:0] n2;\n  always @(posedge clk) if (reset) n2 <= 8'h00; else n2 <= n0;\n") 182 Order }
    ensures clocked_twice { IsRefusedText
        (codes "module t_interconnect (\n  input wire clk,\n  input wire reset,\n  input wire [7:0] a$i$d\n);\n  wire [7:0] n0 = a$i$d;\n  reg [7:0] n1;\n  always @(posedge clk) if (reset) n1 <= 8'ha5; else n1 <= n0;\n  always @(posedge clk) if (reset) n1 <= 8'h00; else n1 <= n0;\n") 229 Order }
    ensures missing_clocked_net { IsRefusedText
        (codes "module t_interconnect (\n  input wire clk,\n  input wire reset,\n  input wire [7:0] a$i$d\n);\n  wire [7:0] n0 = a$i$d;\n  reg [7:0] n1;\n  always @(posedge clk) if (reset) n2 <= 8'h00; else n2 <= n0;\n") 166 NotThere }
    ensures write_of_no_memory { IsRefusedText
        (codes "module t_interconnect (\n  input wire clk,\n  input wire reset,\n  input wire [7:0] a$i$d\n);\n  wire [7:0] n0 = a$i$d;\n  wire [0:0] n1 = |n0;\n  always @(posedge clk) if (n1) m0[n0] <= n0;\n") 171 NotThere }
    ensures assign_before_clocked { IsRefusedText
        (codes "module t_interconnect (\n  input wire clk,\n  input wire reset,\n  input wire [7:0] a$i$d,\n  output wire [7:0] b$i$q\n);\n  wire [7:0] n0 = a$i$d;\n  reg [7:0] n1;\n  assign b$i$q = n1;\n") 161 OtherByte }
    ensures assign_of_an_input { IsRefusedText
        (codes "module t_interconnect (\n  input wire clk,\n  input wire reset,\n  input wire [7:0] a$i$d,\n  output wire [7:0] b$i$q\n);\n  wire [7:0] n0 = a$i$d;\n  assign a$i$d = n0;\n") 151 Name }
    ensures second_assign { IsRefusedText
        (codes "module t_interconnect (\n  input wire clk,\n  input wire reset,\n  input wire [7:0] a$i$d,\n  output wire [7:0] b$i$q\n);\n  wire [7:0] n0 = a$i$d;\n  assign b$i$q = n0;\n  assign b$i$q = n0;\n") 172 Name }
    ensures width_of_an_output { IsRefusedText
        (codes "module t_interconnect (\n  input wire clk,\n  input wire reset,\n  input wire [7:0] a$i$d,\n  output wire [3:0] b$i$q\n);\n  wire [7:0] n0 = a$i$d;\n  assign b$i$q = n0;\n") 159 Width }
    ensures clocked_line_behind_an_assign { IsRefusedText
        (codes "module t_interconnect (\n  input wire clk,\n  input wire reset,\n  input wire [7:0] a$i$d,\n  output wire [7:0] b$i$q\n);\n  wire [7:0] n0 = a$i$d;\n  assign b$i$q = n0;\n  always") 166 OtherByte }
    ensures byte_behind_the_end { IsRefusedText
        (codes "module idle_interconnect (\n  input wire clk,\n  input wire reset\n);\nendmodule\n\n") 77 AfterEnd }
{}

/// Lines behind the last net that a module may have.
pub fn full_modules()
    ensures wire { IsCrowded (codes "  wire [7:0] n4 = ~n0;\n") 0 TooManyNets }
    ensures register { IsCrowded (codes "  reg [7:0] n4;\n") 0 TooManyNets }
    ensures odd_wire { IsCrowded (codes "  wide") 0 TooManyNets }
    ensures input { HasFault (inputs_form (2 ^ 20) 0 one_register.ports)
        (codes "  wire [7:0] n1048576 = a$i$d;\n") 0 TooManyNets }
    ensures no_input { HasFault (inputs_form (2 ^ 20) 0 one_register.ports) (codes "  assign") 2 OtherByte }
    ensures clocked { Reads full_form (codes "  always") four_nets (codes "  always") }
    ensures ended { Reads full_form (codes "endmodule\n") four_nets (codes "endmodule\n") }
{}
