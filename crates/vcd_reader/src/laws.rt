//! What holds of the reading of dumps. The functions do nothing; their contracts are the laws.

ghost use Rattle.std.specs.Prelude.{◌≡◌, ◌++◌, [], ◌∷◌, ℕ, List, codes};
ghost use Rattle.av_base.specs.Word.{word};
ghost use Rattle.vcd_text.specs.Text.{DumpValue, dump_text};
ghost use Rattle.vcd_text.specs.Dumps.{IsDump};
ghost use Rattle.vcd_text.specs.Worked.{inverter, inverter_text, counter, counter_text, portless, portless_text, port};
ghost use Rattle.vcd_reader.specs.declared.rule.Rule.TheVariants.{OtherByte, Name, Width, Code, Time, Value};
ghost use Rattle.vcd_reader.specs.Found.{Found};
ghost use Rattle.vcd_reader.specs.Readings.{dump_read, IsDumpText};
ghost use Rattle.vcd_reader.specs.Worked.{two_ports, two_values, IsReadAs, IsRefused};

/// Small dumps are read back.
pub fn dumps_are_read()
    ensures inverter { IsReadAs inverter_text inverter }
    ensures counter { IsReadAs counter_text counter }
    ensures portless { IsReadAs portless_text portless }
    ensures both_change { IsReadAs (two_values ++ codes "#2\n1!\nb0 \"\n#3\n") (record {
      name = codes "a_interconnect";
      ports = port (codes "a$b") 1 ∷ port (codes "c$d") 2 ∷ [];
      rows = (word 1 0 ∷ word 2 2 ∷ []) ∷ (word 1 0 ∷ word 2 2 ∷ []) ∷ (word 1 1 ∷ word 2 0 ∷ []) ∷ [];
    }) }
{}

/// A value that doesn't change.
pub fn unchanged_value_is_refused()
    ensures { IsRefused
        (codes "$timescale 1 ns $end\n$scope module inv_interconnect $end\n$var wire 1 ! a$b$valid $end\n$var wire 1 \" c$d$valid $end\n$upscope $end\n$enddefinitions $end\n#0\n$dumpvars\n0!\n1\"\n$end\n#1\n1!\n1\"\n#2\n") 180 Value }
{}

/// Headers that break a rule.
pub fn headers_are_refused()
    ensures end_missing { IsRefused (codes "") 0 OtherByte }
    ensures leading_zero_in_a_width { IsRefused
        (codes "$timescale 1 ns $end\n$scope module a_interconnect $end\n$var wire 1 ! a$b $end\n$var wire 02 \" c$d $end\n$upscope $end\n$enddefinitions $end\n") 88 Width }
    ensures width_too_large { IsRefused
        (codes "$timescale 1 ns $end\n$scope module a_interconnect $end\n$var wire 1 ! a$b $end\n$var wire 129 \" c$d $end\n$upscope $end\n$enddefinitions $end\n") 88 Width }
    ensures repeated_name { IsRefused
        (codes "$timescale 1 ns $end\n$scope module a_interconnect $end\n$var wire 1 ! a$b $end\n$var wire 2 \" a$b $end\n$upscope $end\n$enddefinitions $end\n") 92 Name }
    ensures name_without_a_dollar { IsRefused
        (codes "$timescale 1 ns $end\n$scope module a_interconnect $end\n$var wire 1 ! a$b $end\n$var wire 2 \" cd $end\n$upscope $end\n$enddefinitions $end\n") 92 Name }
    ensures other_module_name { IsRefused
        (codes "$timescale 1 ns $end\n$scope module a_interconnec $end\n$var wire 1 ! a$b $end\n$var wire 2 \" c$d $end\n$upscope $end\n$enddefinitions $end\n") 35 Name }
    ensures other_code { IsRefused
        (codes "$timescale 1 ns $end\n$scope module a_interconnect $end\n$var wire 1 ! a$b $end\n$var wire 2 # c$d $end\n$upscope $end\n$enddefinitions $end\n") 90 Code }
{}

/// Changes that break a rule, behind the same first row.
pub fn changes_are_refused()
    ensures no_time { IsRefused (two_values ++ codes "") 163 OtherByte }
    ensures time_not_later { IsRefused (two_values ++ codes "#0\n") 164 Time }
    ensures leading_zero_in_a_time { IsRefused (two_values ++ codes "#01\n") 164 Time }
    ensures time_too_large { IsRefused (two_values ++ codes "#65537\n") 164 Time }
    ensures no_line_behind_a_change { IsRefused (two_values ++ codes "#1\n1!\n") 169 OtherByte }
    ensures value_unchanged { IsRefused (two_values ++ codes "#1\n0!\n#2\n") 166 Value }
    ensures leading_zero_in_a_value { IsRefused (two_values ++ codes "#1\nb01 \"\n#2\n") 166 Value }
    ensures value_too_wide { IsRefused (two_values ++ codes "#1\nb111 \"\n#2\n") 166 Value }
    ensures bit_for_a_wider_port { IsRefused (two_values ++ codes "#1\n1\"\n#2\n") 166 Value }
    ensures digits_for_a_port_of_one_bit { IsRefused (two_values ++ codes "#1\nb1 !\n#2\n") 166 Value }
    ensures code_of_no_port { IsRefused (two_values ++ codes "#1\n1#\n#2\n") 167 Code }
    ensures earlier_port { IsRefused (two_values ++ codes "#1\nb1 \"\n1!\n#2\n") 172 Code }
    ensures code_before_value { IsRefused (two_values ++ codes "#1\nb01 #\n#2\n") 170 Code }
    ensures no_blank_before_value { IsRefused (two_values ++ codes "#1\nb01\"\n#2\n") 169 OtherByte }
    ensures no_line_feed_before_value { IsRefused (two_values ++ codes "#1\nb01 \"") 171 OtherByte }
    ensures time_line_where_a_value_is_due { IsRefused (two_values ++ codes "#1\n#2\n") 167 Code }
{}

/// A dump's text is read as that dump.
pub fn texts_are_read()
    ensures { (dump : DumpValue) → IsDump dump → dump_read (dump_text dump) ≡ Found.told dump [] }
{}

/// A text that is read as a dump is that dump's.
pub fn only_dumps_are_read()
    ensures { (text rest : List ℕ) (dump : DumpValue) → dump_read text ≡ Found.told dump rest → IsDumpText text dump rest }
{}

/// No two dumps have one text.
pub fn no_two_dumps()
    ensures { (one other : DumpValue) → IsDump one → IsDump other → dump_text one ≡ dump_text other → one ≡ other }
{
    texts_are_read();
}
