//! Parts of statements.
ghost use Rattle.std.specs.Prelude.{◌≡◌, true};
ghost use Rattle.vlog_parts.specs.Sorts.{is_stmt, is_sign, is_case_keyword, is_case_item, is_event, is_event_control, is_argument};
ghost use Rattle.vlog_parts.specs.Numbered.{first, rest};
ghost use Rattle.vlog_parts.specs.Values.{stmt_of, stmts_of, sign_of, case_keyword_of, case_item_of, case_items_of, event_of, events_of, event_control_of, argument_of, arguments_of, option_stmt_of};

use crate::stack::Stack;
use crate::value::Value;
use mcy_base::Span;
use std::alloc::Global;
use vlog_syntax::{Argument, Boxed, CaseItem, CaseKind, EventControl, EventExpression, Stmt};

/// The sign of an assignment, with its place.
#[derive(Clone, Copy)]
pub enum AssignmentSign {
    Blocking(Span),
    Nonblocking(Span),
}

/// The keyword of a case statement, with its place.
#[derive(Clone, Copy)]
pub struct CaseKeyword {
    pub span: Span,
    pub kind: CaseKind,
}

impl Stack<Value<'_>> {
    /// The next part, a statement.
    #[tactic(auto, using(crate::proofs::Sorts::only_stmt))]
    pub fn stmt(&mut self) -> Boxed<Stmt>
        requires { is_stmt (first self.old) ≡ true }
        ensures value { result ≡ stmt_of (first self.old) }
        ensures rest { self.new ≡ rest self.old }
    {
        match self.next() {
            Value::Stmt(stmt) => stmt,
            _ => unreachable!(),
        }
    }

    /// The next part, statements.
    #[tactic(auto, using(crate::proofs::Sorts::not_stmts))]
    pub fn stmts(&mut self, alloc: Global) -> Stack<Stmt>
        ensures value { result ≡ stmts_of (first self.old) }
        ensures rest { self.new ≡ rest self.old }
    {
        match self.next() {
            Value::Stmts(stmts) => stmts,
            other => {
                drop(other);
                Stack::new(alloc)
            }
        }
    }

    /// The next part, the sign of an assignment.
    #[tactic(auto, using(crate::proofs::Sorts::only_sign))]
    pub fn sign(&mut self) -> AssignmentSign
        requires { is_sign (first self.old) ≡ true }
        ensures value { result ≡ sign_of (first self.old) }
        ensures rest { self.new ≡ rest self.old }
    {
        match self.next() {
            Value::Sign(sign) => sign,
            _ => unreachable!(),
        }
    }

    /// The next part, the keyword of a case statement.
    #[tactic(auto, using(crate::proofs::Sorts::only_case_keyword))]
    pub fn case_keyword(&mut self) -> CaseKeyword
        requires { is_case_keyword (first self.old) ≡ true }
        ensures value { result ≡ case_keyword_of (first self.old) }
        ensures rest { self.new ≡ rest self.old }
    {
        match self.next() {
            Value::CaseKeyword(case_keyword) => case_keyword,
            _ => unreachable!(),
        }
    }

    /// The next part, an item of a case statement.
    #[tactic(auto, using(crate::proofs::Sorts::only_case_item))]
    pub fn case_item(&mut self) -> CaseItem
        requires { is_case_item (first self.old) ≡ true }
        ensures value { result ≡ case_item_of (first self.old) }
        ensures rest { self.new ≡ rest self.old }
    {
        match self.next() {
            Value::CaseItem(case_item) => case_item,
            _ => unreachable!(),
        }
    }

    /// The next part, items of a case statement.
    #[tactic(auto, using(crate::proofs::Sorts::not_case_items))]
    pub fn case_items(&mut self, alloc: Global) -> Stack<CaseItem>
        ensures value { result ≡ case_items_of (first self.old) }
        ensures rest { self.new ≡ rest self.old }
    {
        match self.next() {
            Value::CaseItems(case_items) => case_items,
            other => {
                drop(other);
                Stack::new(alloc)
            }
        }
    }

    /// The next part, an event.
    #[tactic(auto, using(crate::proofs::Sorts::only_event))]
    pub fn event(&mut self) -> EventExpression
        requires { is_event (first self.old) ≡ true }
        ensures value { result ≡ event_of (first self.old) }
        ensures rest { self.new ≡ rest self.old }
    {
        match self.next() {
            Value::Event(event) => event,
            _ => unreachable!(),
        }
    }

    /// The next part, events.
    #[tactic(auto, using(crate::proofs::Sorts::not_events))]
    pub fn events(&mut self, alloc: Global) -> Stack<EventExpression>
        ensures value { result ≡ events_of (first self.old) }
        ensures rest { self.new ≡ rest self.old }
    {
        match self.next() {
            Value::Events(events) => events,
            other => {
                drop(other);
                Stack::new(alloc)
            }
        }
    }

    /// The next part, an event control.
    #[tactic(auto, using(crate::proofs::Sorts::only_event_control))]
    pub fn event_control(&mut self) -> EventControl
        requires { is_event_control (first self.old) ≡ true }
        ensures value { result ≡ event_control_of (first self.old) }
        ensures rest { self.new ≡ rest self.old }
    {
        match self.next() {
            Value::EventControl(event_control) => event_control,
            _ => unreachable!(),
        }
    }

    /// The next part, an argument.
    #[tactic(auto, using(crate::proofs::Sorts::only_argument))]
    pub fn argument(&mut self) -> Argument
        requires { is_argument (first self.old) ≡ true }
        ensures value { result ≡ argument_of (first self.old) }
        ensures rest { self.new ≡ rest self.old }
    {
        match self.next() {
            Value::Argument(argument) => argument,
            _ => unreachable!(),
        }
    }

    /// The next part, arguments.
    #[tactic(auto, using(crate::proofs::Sorts::not_arguments))]
    pub fn arguments(&mut self, alloc: Global) -> Stack<Argument>
        ensures value { result ≡ arguments_of (first self.old) }
        ensures rest { self.new ≡ rest self.old }
    {
        match self.next() {
            Value::Arguments(arguments) => arguments,
            other => {
                drop(other);
                Stack::new(alloc)
            }
        }
    }

    /// The next part, a statement where there is one.
    #[tactic(auto, using(crate::proofs::Sorts::not_option_stmt))]
    pub fn option_stmt(&mut self) -> Option<Boxed<Stmt>>
        ensures value { result ≡ option_stmt_of (first self.old) }
        ensures rest { self.new ≡ rest self.old }
    {
        match self.next() {
            Value::Stmt(stmt) => Some(stmt),
            other => {
                drop(other);
                None
            }
        }
    }
}
