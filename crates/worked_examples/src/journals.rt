//! Commands that ask for journals, and what each writes.

/// A command over a script, the whole text that it writes, and its status.
#[derive(Clone, Copy)]
pub(crate) struct Example {
    pub(crate) words: &'static str,
    pub(crate) script: &'static str,
    pub(crate) text: &'static str,
    pub(crate) status: u8,
}

pub(crate) const JOURNALS: [Example; 5] = [
    Example {
        words: "run --journal",
        script: "",
        text: "",
        status: 0,
    },
    Example {
        words: "run --serial --journal",
        script: "shared s; task a { s.n = 1; } task b { print s.n; }",
        text: "b: 1\nobject 0\n  a SetMember \"n\" 1 -> nil\n  b GetMember \"n\" -> 1\n  members \"n\" 1\n",
        status: 0,
    },
    Example {
        words: "run --journal",
        script: "shared s; task a { print s.x; }",
        text: "a! NoMember \"x\"\nobject 0\n  a GetMember \"x\" -> ! NoMember \"x\"\n  members\n",
        status: 1,
    },
    Example {
        words: "run --journal --serial",
        script: "shared s; task a { let o = new(); o.x = s; o.y = o; delete o.x; o.x = nil; }",
        text: "object 0\n  members\nobject 1\n  a SetMember \"x\" obj#0 -> nil\n  a SetMember \"y\" obj#1 -> nil\n  a DeleteMember \"x\" -> nil\n  a SetMember \"x\" nil -> nil\n  members \"y\" obj#1, \"x\" nil\n",
        status: 0,
    },
    Example {
        words: "run --serial --journal",
        script: "shared stock;\ntask fill { stock.tea = 3; }\ntask sell { stock.tea = (stock.tea - 1); print stock.cup; }\n",
        text: "sell! NoMember \"cup\"\nobject 0\n  fill SetMember \"tea\" 3 -> nil\n  sell GetMember \"tea\" -> 3\n  sell SetMember \"tea\" 2 -> nil\n  sell GetMember \"cup\" -> ! NoMember \"cup\"\n  members \"tea\" 2\n",
        status: 1,
    },
];
