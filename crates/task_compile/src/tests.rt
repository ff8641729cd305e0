use crate::compile;
use dyn_value::Value;
use script_grammar::parse;
use script_names::first_bad_name;
use script_sites::number_sites;
use script_tokens::lex;
use std::alloc::{AllocError, Global};
use std::test::Fail;
use task_code::{FunctionCode, Node, NodeHead, NodeSuffix, Step, Steps};

/// Scripts, and their code: `$` stands before the number of a local, `@` before that of a site.
static CODES: [(&str, &str); 12] = [
    ("", ""),
    (
        "task t { let x = 1; print x; x = nil; }",
        "task{$0 = 1;print $0;$0 = nil;}",
    ),
    (
        "task t { if true { let x = 1; print x; } let y = 2; print y; }",
        "task{if @0 true {$0 = 1;print $0;}$0 = 2;print $0;}",
    ),
    (
        "task t { let a = 1; if a { let b = 2; while (a < b) { let c = a; a = (c + b); } }
            else { let d = 3; print d; } let e = 4; print (a + e); }",
        "task{$0 = 1;if @0 $0 {$1 = 2;while @1 ($0 @2 $1) {$2 = $0;$0 = ($2 @3 $1);}}\
            else {$1 = 3;print $1;}$1 = 4;print ($0 @4 $1);}",
    ),
    (
        "task t { let a = 1; try { let b = (a + 0); print b; } catch e { print e; let f = e; print f; }
            let c = 2; print c; }",
        "task{$0 = 1;try {$1 = ($0 @0 0);print $1;}catch $1 {print $1;$2 = $1;print $2;}\
            $1 = 2;print $1;}",
    ),
    (
        "shared s; task t { let o = new(); o.x = (1 + 2); o[\"k\"] = s.y; delete o.x; delete o[(1 - 1)]; }",
        "task{$0 = new();$0.@0 = (1 @1 2);$0[@2 \"k\"] = object 0.@3;delete $0.@4;\
            delete $0[@5 (1 @6 1)];}",
    ),
    (
        "fn f(a, b) { return (a - b); } task t { print f(1, b: 2); f(b: 1, a: 2); }",
        "fn( a b){return ($0 @0 $1);}task{print fn 0(@1 1 2);fn 0(@2 1 2);}",
    ),
    (
        "task t { let o = new(); print o.m(o.x, 2)[o.y]; }",
        "task{$0 = new();print $0.(@0 $0.@2 2)[@3 $0.@4];}",
    ),
    (
        "task t { print (1 + f()); } fn f() { let x = (2 + 3); return x; }",
        "fn(){$0 = (2 @2 3);return $0;}task{print (1 @0 fn 0(@1));}",
    ),
    (
        "shared s; shared u; fn f(x) { return x; } fn g(y) { return f(y); }
            task t { print g(s); } task v { print u; print (!true); print text(1); }",
        "fn( x){return $0;}fn( y){return fn 0(@0 $0);}\
            task{print fn 1(@1 object 0);}task{print object 1;print (@2 true);print (@3 1);}",
    ),
    (
        "fn f(o, a) { o.a = a; } task t { let o = new(f, a: (1 + 2)); print o.a; }",
        "fn( o a){$0.@0 = $1;}task{$0 = new(@1 fn 0 (1 @2 2));print $0.@3;}",
    ),
    (
        "task t { while (1 < 2) { if (3 < 4) { return 5; } else { } } }",
        "task{while @0 (1 @1 2) {if @2 (3 @3 4) {return 5;}else {}}}",
    ),
];

fn value_words(alloc: Global, value: &Value) -> Result<String, AllocError> {
    match value {
        Value::Nil => format!(in alloc; "nil"),
        Value::Bool(truth) => format!(in alloc; "{truth}"),
        Value::Int(number) => format!(in alloc; "{number}"),
        Value::Text(text) => format!(in alloc; "\"{}\"", text.as_str()),
        Value::Obj(number) => format!(in alloc; "object {number}"),
        Value::Fun(number) => format!(in alloc; "fn {number}"),
    }
}

#[cycle(node_words)]
fn node_words(alloc: Global, node: &Node) -> Result<String, AllocError> {
    let mut words = head_words(alloc, &node.head)?;
    for suffix in node.suffixes.as_slice() {
        words.push_str(suffix_words(alloc, suffix)?.as_str())?;
    }
    Ok(words)
}

#[cycle(node_words)]
fn head_words(alloc: Global, head: &NodeHead) -> Result<String, AllocError> {
    match head {
        NodeHead::Literal(value) => value_words(alloc, value),
        NodeHead::Local(local) => format!(in alloc; "${local}"),
        NodeHead::Unary { site, value } => {
            let value = node_words(alloc, value.get())?;
            format!(in alloc; "(@{site} {value})")
        }
        NodeHead::Binary { site, left, right } => {
            let left = node_words(alloc, left.get())?;
            let right = node_words(alloc, right.get())?;
            format!(in alloc; "({left} @{site} {right})")
        }
        NodeHead::New => format!(in alloc; "new()"),
        NodeHead::NewOf { site, target, args } => {
            let target = node_words(alloc, target.get())?;
            let args = args_words(alloc, args.as_slice())?;
            format!(in alloc; "new(@{site} {target}{args})")
        }
    }
}

#[cycle(node_words)]
fn suffix_words(alloc: Global, suffix: &NodeSuffix) -> Result<String, AllocError> {
    match suffix {
        NodeSuffix::Member { site } => format!(in alloc; ".@{site}"),
        NodeSuffix::MemberCall { site, args } => {
            let args = args_words(alloc, args.as_slice())?;
            format!(in alloc; ".(@{site}{args})")
        }
        NodeSuffix::Index { site, key } => {
            let key = node_words(alloc, key)?;
            format!(in alloc; "[@{site} {key}]")
        }
        NodeSuffix::Call { site, args } => {
            let args = args_words(alloc, args.as_slice())?;
            format!(in alloc; "(@{site}{args})")
        }
    }
}

/// Each argument after a blank.
#[cycle(node_words)]
fn args_words(alloc: Global, args: &[Node]) -> Result<String, AllocError> {
    let mut words = String::new(alloc);
    for arg in args {
        words.push_str(" ")?;
        words.push_str(node_words(alloc, arg)?.as_str())?;
    }
    Ok(words)
}

#[cycle(steps_words)]
fn steps_words(alloc: Global, steps: &Steps) -> Result<String, AllocError> {
    let mut words = String::from_str(alloc, "{")?;
    for step in steps.0.as_slice() {
        words.push_str(step_words(alloc, step)?.as_str())?;
    }
    words.push_str("}")?;
    Ok(words)
}

#[cycle(steps_words)]
fn step_words(alloc: Global, step: &Step) -> Result<String, AllocError> {
    match step {
        Step::If {
            site,
            test,
            yes,
            no,
        } => {
            let test = node_words(alloc, test)?;
            let yes = steps_words(alloc, yes)?;
            match no {
                Some(no) => {
                    let no = steps_words(alloc, no)?;
                    format!(in alloc; "if @{site} {test} {yes}else {no}")
                }
                None => format!(in alloc; "if @{site} {test} {yes}"),
            }
        }
        Step::While { site, test, body } => {
            let test = node_words(alloc, test)?;
            let body = steps_words(alloc, body)?;
            format!(in alloc; "while @{site} {test} {body}")
        }
        Step::Try {
            body,
            local,
            caught,
        } => {
            let body = steps_words(alloc, body)?;
            let caught = steps_words(alloc, caught)?;
            format!(in alloc; "try {body}catch ${local} {caught}")
        }
        _ => plain_words(alloc, step),
    }
}

/// A statement with no block in it.
fn plain_words(alloc: Global, step: &Step) -> Result<String, AllocError> {
    match step {
        Step::Set { local, value } => {
            let value = node_words(alloc, value)?;
            format!(in alloc; "${local} = {value};")
        }
        Step::SetMember {
            site,
            target,
            value,
        } => {
            let target = node_words(alloc, target)?;
            let value = node_words(alloc, value)?;
            format!(in alloc; "{target}.@{site} = {value};")
        }
        Step::SetIndex {
            site,
            target,
            key,
            value,
        } => {
            let target = node_words(alloc, target)?;
            let key = node_words(alloc, key)?;
            let value = node_words(alloc, value)?;
            format!(in alloc; "{target}[@{site} {key}] = {value};")
        }
        Step::DeleteMember { site, target } => {
            let target = node_words(alloc, target)?;
            format!(in alloc; "delete {target}.@{site};")
        }
        Step::DeleteIndex { site, target, key } => {
            let target = node_words(alloc, target)?;
            let key = node_words(alloc, key)?;
            format!(in alloc; "delete {target}[@{site} {key}];")
        }
        Step::Return(value) => {
            let value = node_words(alloc, value)?;
            format!(in alloc; "return {value};")
        }
        Step::Print(value) => {
            let value = node_words(alloc, value)?;
            format!(in alloc; "print {value};")
        }
        Step::Plain(value) => {
            let value = node_words(alloc, value)?;
            format!(in alloc; "{value};")
        }
        _ => String::from_str(alloc, "?"),
    }
}

fn function_words(alloc: Global, function: &FunctionCode) -> Result<String, AllocError> {
    let mut words = String::from_str(alloc, "fn(")?;
    for param in function.params.as_slice() {
        words.push_str(" ")?;
        words.push_str(param.as_str())?;
    }
    words.push_str(")")?;
    words.push_str(steps_words(alloc, &function.body)?.as_str())?;
    Ok(words)
}

/// The code of the script of this text, in words.
fn code_words(alloc: Global, source: &str) -> Result<String, Fail> {
    if source.len() > 1_000 {
        return Err("the text is too long".into());
    }
    let placed = lex(alloc, source.as_bytes())?;
    let script = parse(alloc, placed.tokens.as_slice())?;
    if first_bad_name(alloc, &script)?.is_some() {
        return Err("a name breaks a rule".into());
    }
    let numbering = number_sites(alloc, &script)?;
    let code = compile(alloc, &script, &numbering)?;
    let mut words = String::new(alloc);
    for function in code.functions.as_slice() {
        words.push_str(function_words(alloc, function)?.as_str())?;
    }
    for task in code.tasks.as_slice() {
        words.push_str("task")?;
        words.push_str(steps_words(alloc, task)?.as_str())?;
    }
    Ok(words)
}

#[test]
fn codes_of_scripts(rt: HostRuntime) -> Result<(), Fail> {
    for &(source, want) in &CODES {
        let words = code_words(rt.alloc(), source)?;
        assert_eq!(rt; words.as_str(), want, "of {source}");
    }
    Ok(())
}
