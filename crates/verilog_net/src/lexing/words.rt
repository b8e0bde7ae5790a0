//! Keywords (IEEE 1364-2005, annex on keywords).

ghost use Rattle.std.specs.Prelude.{◌≡◌};
ghost use Rattle.netlist_model.specs.VerilogWords as grammar;
ghost use Rattle.verilog_net.specs.Keywords.{kind_of, rows_seen};

use source_types::VerilogToken;

/// The keywords and their kinds: those of the grammar here, then those that it has not.
static KEYWORDS: [(&str, VerilogToken); 124] = [
    ("module", VerilogToken::Module),
    ("endmodule", VerilogToken::EndModule),
    ("input", VerilogToken::Input),
    ("output", VerilogToken::Output),
    ("inout", VerilogToken::Inout),
    ("wire", VerilogToken::Wire),
    ("tri", VerilogToken::Tri),
    ("supply0", VerilogToken::Supply0),
    ("supply1", VerilogToken::Supply1),
    ("assign", VerilogToken::Assign),
    ("always", VerilogToken::Other),
    ("and", VerilogToken::Other),
    ("automatic", VerilogToken::Other),
    ("begin", VerilogToken::Other),
    ("buf", VerilogToken::Other),
    ("bufif0", VerilogToken::Other),
    ("bufif1", VerilogToken::Other),
    ("case", VerilogToken::Other),
    ("casex", VerilogToken::Other),
    ("casez", VerilogToken::Other),
    ("cell", VerilogToken::Other),
    ("cmos", VerilogToken::Other),
    ("config", VerilogToken::Other),
    ("deassign", VerilogToken::Other),
    ("default", VerilogToken::Other),
    ("defparam", VerilogToken::Other),
    ("design", VerilogToken::Other),
    ("disable", VerilogToken::Other),
    ("edge", VerilogToken::Other),
    ("else", VerilogToken::Other),
    ("end", VerilogToken::Other),
    ("endcase", VerilogToken::Other),
    ("endconfig", VerilogToken::Other),
    ("endfunction", VerilogToken::Other),
    ("endgenerate", VerilogToken::Other),
    ("endprimitive", VerilogToken::Other),
    ("endspecify", VerilogToken::Other),
    ("endtable", VerilogToken::Other),
    ("endtask", VerilogToken::Other),
    ("event", VerilogToken::Other),
    ("for", VerilogToken::Other),
    ("force", VerilogToken::Other),
    ("forever", VerilogToken::Other),
    ("fork", VerilogToken::Other),
    ("function", VerilogToken::Other),
    ("generate", VerilogToken::Other),
    ("genvar", VerilogToken::Other),
    ("highz0", VerilogToken::Other),
    ("highz1", VerilogToken::Other),
    ("if", VerilogToken::Other),
    ("ifnone", VerilogToken::Other),
    ("incdir", VerilogToken::Other),
    ("include", VerilogToken::Other),
    ("initial", VerilogToken::Other),
    ("instance", VerilogToken::Other),
    ("integer", VerilogToken::Other),
    ("join", VerilogToken::Other),
    ("large", VerilogToken::Other),
    ("liblist", VerilogToken::Other),
    ("library", VerilogToken::Other),
    ("localparam", VerilogToken::Other),
    ("macromodule", VerilogToken::Other),
    ("medium", VerilogToken::Other),
    ("nand", VerilogToken::Other),
    ("negedge", VerilogToken::Other),
    ("nmos", VerilogToken::Other),
    ("nor", VerilogToken::Other),
    ("noshowcancelled", VerilogToken::Other),
    ("not", VerilogToken::Other),
    ("notif0", VerilogToken::Other),
    ("notif1", VerilogToken::Other),
    ("or", VerilogToken::Other),
    ("parameter", VerilogToken::Other),
    ("pmos", VerilogToken::Other),
    ("posedge", VerilogToken::Other),
    ("primitive", VerilogToken::Other),
    ("pull0", VerilogToken::Other),
    ("pull1", VerilogToken::Other),
    ("pulldown", VerilogToken::Other),
    ("pullup", VerilogToken::Other),
    ("pulsestyle_onevent", VerilogToken::Other),
    ("pulsestyle_ondetect", VerilogToken::Other),
    ("rcmos", VerilogToken::Other),
    ("real", VerilogToken::Other),
    ("realtime", VerilogToken::Other),
    ("reg", VerilogToken::Other),
    ("release", VerilogToken::Other),
    ("repeat", VerilogToken::Other),
    ("rnmos", VerilogToken::Other),
    ("rpmos", VerilogToken::Other),
    ("rtran", VerilogToken::Other),
    ("rtranif0", VerilogToken::Other),
    ("rtranif1", VerilogToken::Other),
    ("scalared", VerilogToken::Other),
    ("showcancelled", VerilogToken::Other),
    ("signed", VerilogToken::Other),
    ("small", VerilogToken::Other),
    ("specify", VerilogToken::Other),
    ("specparam", VerilogToken::Other),
    ("strong0", VerilogToken::Other),
    ("strong1", VerilogToken::Other),
    ("table", VerilogToken::Other),
    ("task", VerilogToken::Other),
    ("time", VerilogToken::Other),
    ("tran", VerilogToken::Other),
    ("tranif0", VerilogToken::Other),
    ("tranif1", VerilogToken::Other),
    ("tri0", VerilogToken::Other),
    ("tri1", VerilogToken::Other),
    ("triand", VerilogToken::Other),
    ("trior", VerilogToken::Other),
    ("trireg", VerilogToken::Other),
    ("unsigned", VerilogToken::Other),
    ("use", VerilogToken::Other),
    ("uwire", VerilogToken::Other),
    ("vectored", VerilogToken::Other),
    ("wait", VerilogToken::Other),
    ("wand", VerilogToken::Other),
    ("weak0", VerilogToken::Other),
    ("weak1", VerilogToken::Other),
    ("while", VerilogToken::Other),
    ("wor", VerilogToken::Other),
    ("xnor", VerilogToken::Other),
    ("xor", VerilogToken::Other),
];

/// The kind that a table gives a word; a word that is not in it is a name.
fn kind_in(rows: &[(&str, VerilogToken)], word: &str) -> VerilogToken
    ensures { result ≡ kind_of (rows_seen rows.now) word.now }
{
    for (keyword, kind) in rows {
        if word == *keyword {
            return *kind;
        }
    }
    VerilogToken::Name
}

/// The kind of a word: a name, or the keyword that it is.
pub fn word_kind(word: &str) -> VerilogToken
    ensures { result ≡ grammar.word_kind word.now }
{
    kind_in(&KEYWORDS, word)
}
