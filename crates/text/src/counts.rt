// The report's lines with numbers: those before the lists, the one behind them, and all of a program that is left alone.
ghost use Rattle.std.specs.Prelude.{◌≡◌, ◌+◌, ◌<◌, ◌≤◌, length};
ghost use Rattle.text.specs.Fill.{limit};
ghost use Rattle.text.specs.Counts.{most, counted, count_line, top_text, unchanged_text, graph_text};
ghost use Rattle.text.specs.Written.{written};

use crate::writer::Writer;

// The numbers before the first list.
#[derive(Clone, Copy)]
pub struct Top {
    pub functions: usize,
    pub before: usize,
    pub after: usize,
    pub rounds: usize,
    pub removed: usize,
    ghost few: { (functions < most) × (before < most) × (after < most) × (rounds < most) × (removed < most) },
}

// The numbers of the verdict.
#[derive(Clone, Copy)]
pub struct Graph {
    pub functions: usize,
    pub undecided: usize,
    pub uncovered: usize,
    pub uncharacterised: usize,
    ghost few: { (functions < most) × (undecided < most) × (uncovered < most) × (uncharacterised < most) },
}

impl<'a> Writer<'a> {
    // A number after its label.
    fn put_counted(&mut self, label: &[u8], n: usize)
        requires { (n < most) × (self.old.filled + length label.now + 17 ≤ limit) }
        ensures written { self.new ≡ written self.old (counted label.now n) }
        ensures short { self.new.filled ≤ self.old.filled + length label.now + 17 }
    {
        self.put_bytes(label);
        self.put_decimal(n);
    }

    // The same on a line of its own.
    pub fn put_count_line(&mut self, label: &[u8], n: usize)
        requires { (n < most) × (self.old.filled + length label.now + 18 ≤ limit) }
        ensures written { self.new ≡ written self.old (count_line label.now n) }
        ensures short { self.new.filled ≤ self.old.filled + length label.now + 18 }
    {
        self.put_counted(label, n);
        self.put_byte(b'\n');
    }

    // The lines before the first list.
    pub fn put_top(&mut self, top: Top)
        requires { self.old.filled + 150 ≤ limit }
        ensures written { self.new ≡ written self.old (top_text top.functions top.before top.after top.rounds top.removed) }
        ensures short { self.new.filled ≤ self.old.filled + 150 }
    {
        self.put_counted(b"functions: ", top.functions);
        self.put_counted(b"\nsentences: ", top.before);
        self.put_counted(b" -> ", top.after);
        self.put_counted(b"\nrounds: ", top.rounds);
        self.put_count_line(b"\nremoved: ", top.removed);
    }

    // The verdict, of a program that is cleaned.
    pub fn put_graph(&mut self, graph: Graph)
        requires { self.old.filled + 120 ≤ limit }
        ensures { self.new ≡ written self.old (graph_text graph.functions graph.undecided graph.uncovered graph.uncharacterised) }
    {
        if graph.functions == 0 {
            return self.put_bytes(b"graph: empty\n");
        }
        if graph.undecided + graph.uncovered + graph.uncharacterised == 0 {
            return self.put_bytes(b"graph: perfect\n");
        }
        self.put_counted(b"graph: clean (undecided ", graph.undecided);
        self.put_counted(b", uncovered ", graph.uncovered);
        if 0 < graph.uncharacterised {
            self.put_counted(b", uncharacterised ", graph.uncharacterised);
        }
        self.put_bytes(b")\n");
    }

    // All lines of a program with a call of Mu or Up, which is left alone.
    pub fn put_unchanged(&mut self, functions: usize, sentences: usize)
        requires { (functions < most) × (sentences < most) × (self.old.filled + 300 ≤ limit) }
        ensures { self.new ≡ written self.old (unchanged_text functions sentences) }
    {
        self.put_top(Top {
            functions,
            before: sentences,
            after: sentences,
            rounds: 0,
            removed: 0,
        });
        self.put_count_line(b"undecided: ", 0);
        self.put_count_line(b"uncovered: ", 0);
        self.put_bytes(b"dynamic-dispatch: yes (nothing cleaned)\ngraph: unknown\n");
    }
}
