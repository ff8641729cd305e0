//! The texts of rules.
ghost use Rattle.std.specs.Prelude.{◌≡◌, ◌++◌, IsTrue, OnErr, OnOk, encode_utf8_all};
ghost use Rattle.std.specs.Char.{is_ascii};
ghost use Rattle.std.specs.List.{list_all};
ghost use Rattle.rule.specs.Texts.{rule_text};

use crate::rule::Rule;
use std::alloc::AllocError;

impl Rule {
    /// Appends the text of the rule, as UTF-8: `(if`, its test, its body, and `update)`. Where memory is refused, `out`
    /// stays as it was.
    pub fn print_to(&self, out: &mut Vec<u8>) -> Result<(), AllocError>
        ensures appended { OnOk result (out.new.items ≡ out.old.items ++ encode_utf8_all (rule_text self.now)) }
        ensures refused { OnErr result (out.new.items ≡ out.old.items) }
    {
        let mut text = Vec::new(*out.allocator());
        self.append_to(&mut text)?;
        out.extend_from_slice(text.as_slice())
    }

    /// Appends the text of the rule, as UTF-8.
    fn append_to(&self, out: &mut Vec<u8>) -> Result<(), AllocError>
        ensures { OnOk result (out.new.items ≡ out.old.items ++ encode_utf8_all (rule_text self.now)) }
    {
        push_word(out, "(if ")?;
        self.test().print_to(out)?;
        push_word(out, " ")?;
        self.body().tree().print_to(out)?;
        push_word(out, " update)")
    }
}

fn push_word(out: &mut Vec<u8>, word: &str) -> Result<(), AllocError>
    requires { IsTrue (list_all is_ascii word.now) }
    ensures { OnOk result (out.new.items ≡ out.old.items ++ encode_utf8_all word.now) }
{
    out.extend_from_slice(word.as_bytes())
}
