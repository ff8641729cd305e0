//! Two threads in one call of the engine's language: each names itself, and tries until the other has.
ghost use Rattle.fallback.specs.Answers.{IsOwnFirst};

use dyn_value::DynText;
use fallback::Script;
use meta_object::{BindContext, Bound, Language, MetaObject};
use standard_binders::{Binder, FunTable};
use std::alloc::{AllocError, Global};
use std::hint::spin_loop;
use std::sync::Wait;
use std::sync::atomic::{AtomicBool, Ordering};
use std::thread::yield_now;

/// How often a call tries before it is late.
const TRIES: u32 = 50_000_000;

/// The script's language. A call for a set of the member `x` waits until one for `y` has come, and the other way round.
#[derive(Drop)]
pub(super) struct MeetingLanguage<'m> {
    pub(super) script: Script,
    pub(super) marks: &'m Marks,
}

/// Which of the two calls have come, and whether one of them waited in vain.
#[derive(Drop)]
pub(super) struct Marks {
    pub(super) x: AtomicBool,
    pub(super) y: AtomicBool,
    pub(super) late: AtomicBool,
}

impl Marks {
    /// No call has come.
    pub(super) fn new() -> Marks {
        Marks {
            x: AtomicBool::new(false),
            y: AtomicBool::new(false),
            late: AtomicBool::new(false),
        }
    }

    /// Whether both calls have come, and neither was late.
    pub(super) fn have_met(&self) -> bool {
        let both = self.x.load(Ordering::SeqCst) && self.y.load(Ordering::SeqCst);
        both && !self.late.load(Ordering::SeqCst)
    }

    /// Marks the call of this name, and waits until the other is marked.
    fn meet(&self, name: &DynText) {
        match name.as_str() {
            "x" => self.wait(&self.x, &self.y),
            "y" => self.wait(&self.y, &self.x),
            _ => {}
        }
    }

    /// Marks the one, and tries until the other is marked.
    fn wait(&self, here: &AtomicBool, there: &AtomicBool) {
        here.store(true, Ordering::SeqCst);
        for tries in 0..TRIES {
            if there.load(Ordering::SeqCst) {
                return;
            }
            if tries % 64 == 63 {
                yield_now();
            } else {
                spin_loop();
            }
        }
        self.late.store(true, Ordering::SeqCst);
    }
}

impl Language for MeetingLanguage<'_> {
    ghost functions = { λ language. language.script.functions.params };

    ghost answers = { λ language. IsOwnFirst language.script.functions.params };

    fn funs(&self) -> &FunTable {
        self.script.funs()
    }

    fn fallback_get_member<R: Wait>(
        &self,
        alloc: Global,
        rt: &R,
        cx: &mut BindContext,
        binder: &Binder,
        metas: &[MetaObject],
        suggestion: Option<Bound>,
    ) -> Result<Bound, AllocError> {
        self.script
            .fallback_get_member(alloc, rt, cx, binder, metas, suggestion)
    }

    fn fallback_set_member<R: Wait>(
        &self,
        alloc: Global,
        rt: &R,
        cx: &mut BindContext,
        binder: &Binder,
        metas: &[MetaObject],
        suggestion: Option<Bound>,
    ) -> Result<Bound, AllocError> {
        if let Binder::SetMember { name, .. } = binder {
            self.marks.meet(name);
        }
        self.script
            .fallback_set_member(alloc, rt, cx, binder, metas, suggestion)
    }

    fn fallback_delete_member<R: Wait>(
        &self,
        alloc: Global,
        rt: &R,
        cx: &mut BindContext,
        binder: &Binder,
        metas: &[MetaObject],
        suggestion: Option<Bound>,
    ) -> Result<Bound, AllocError> {
        self.script
            .fallback_delete_member(alloc, rt, cx, binder, metas, suggestion)
    }

    fn fallback_get_index<R: Wait>(
        &self,
        alloc: Global,
        rt: &R,
        cx: &mut BindContext,
        binder: &Binder,
        metas: &[MetaObject],
        suggestion: Option<Bound>,
    ) -> Result<Bound, AllocError> {
        self.script
            .fallback_get_index(alloc, rt, cx, binder, metas, suggestion)
    }

    fn fallback_set_index<R: Wait>(
        &self,
        alloc: Global,
        rt: &R,
        cx: &mut BindContext,
        binder: &Binder,
        metas: &[MetaObject],
        suggestion: Option<Bound>,
    ) -> Result<Bound, AllocError> {
        self.script
            .fallback_set_index(alloc, rt, cx, binder, metas, suggestion)
    }

    fn fallback_delete_index<R: Wait>(
        &self,
        alloc: Global,
        rt: &R,
        cx: &mut BindContext,
        binder: &Binder,
        metas: &[MetaObject],
        suggestion: Option<Bound>,
    ) -> Result<Bound, AllocError> {
        self.script
            .fallback_delete_index(alloc, rt, cx, binder, metas, suggestion)
    }

    fn fallback_invoke<R: Wait>(
        &self,
        alloc: Global,
        rt: &R,
        cx: &mut BindContext,
        binder: &Binder,
        metas: &[MetaObject],
        suggestion: Option<Bound>,
    ) -> Result<Bound, AllocError> {
        self.script
            .fallback_invoke(alloc, rt, cx, binder, metas, suggestion)
    }

    fn fallback_invoke_member<R: Wait>(
        &self,
        alloc: Global,
        rt: &R,
        cx: &mut BindContext,
        binder: &Binder,
        metas: &[MetaObject],
        suggestion: Option<Bound>,
    ) -> Result<Bound, AllocError> {
        self.script
            .fallback_invoke_member(alloc, rt, cx, binder, metas, suggestion)
    }

    fn fallback_create_instance<R: Wait>(
        &self,
        alloc: Global,
        rt: &R,
        cx: &mut BindContext,
        binder: &Binder,
        metas: &[MetaObject],
        suggestion: Option<Bound>,
    ) -> Result<Bound, AllocError> {
        self.script
            .fallback_create_instance(alloc, rt, cx, binder, metas, suggestion)
    }

    fn fallback_convert<R: Wait>(
        &self,
        alloc: Global,
        rt: &R,
        cx: &mut BindContext,
        binder: &Binder,
        metas: &[MetaObject],
        suggestion: Option<Bound>,
    ) -> Result<Bound, AllocError> {
        self.script
            .fallback_convert(alloc, rt, cx, binder, metas, suggestion)
    }

    fn fallback_unary_operation<R: Wait>(
        &self,
        alloc: Global,
        rt: &R,
        cx: &mut BindContext,
        binder: &Binder,
        metas: &[MetaObject],
        suggestion: Option<Bound>,
    ) -> Result<Bound, AllocError> {
        self.script
            .fallback_unary_operation(alloc, rt, cx, binder, metas, suggestion)
    }

    fn fallback_binary_operation<R: Wait>(
        &self,
        alloc: Global,
        rt: &R,
        cx: &mut BindContext,
        binder: &Binder,
        metas: &[MetaObject],
        suggestion: Option<Bound>,
    ) -> Result<Bound, AllocError> {
        self.script
            .fallback_binary_operation(alloc, rt, cx, binder, metas, suggestion)
    }
}
