//! The evaluation of expressions and statements, by recursion over the tree.

ghost use Rattle.std.specs.Prelude.{◌≡◌, ◌+◌, ◌*◌, ◌<◌, ◌≤◌, [], length, slice_index, IfOk, IfErr, OnOk};
ghost use Rattle.tracer_lang.specs.Tree.{expression_of, arguments_of, statement_of, statements_of};
ghost use Rattle.tracer_lang.specs.Limits.{argument_count, FitsExpression, FitsArguments, FitsStatement, FitsStatements};
ghost use Rattle.tracer_lang.specs.Meaning.{Goes, operator_value, expression_meaning, arguments_meaning, statement_meaning, statements_meaning, turns};
ghost use Rattle.tracer_mean.specs.Evaluated.{now_of, at_machine, HaltsAt, KeepsBody, counts_of, enter_at};

use crate::progress::{Halt, Progress};
use rv_machine::{Machine, is_taken, mul_div_value, register_value};
use std::alloc::Global;
use std::mem;
use tracer_lang::{Args, Block, Expr, Operator, Script, Stmt, TracerEnd};

/// What an operator makes of two words.
fn operator_value(operator: Operator, a: u32, b: u32) -> u32
    ensures { result ≡ operator_value operator a b }
{
    match operator {
        Operator::Register(op) => register_value(op, a, b),
        Operator::MulDiv(op) => mul_div_value(op, a, b),
        Operator::Branch(op) => u32::from(is_taken(op, a, b)),
        Operator::Exchanged(op) => u32::from(is_taken(op, b, a)),
    }
}

/// A tracer of a script, at the machine where it fires.
#[derive(Clone, Copy)]
pub(crate) struct Tracer<'a> {
    pub(crate) machine: &'a Machine,
    pub(crate) script: &'a Script,
}

impl Tracer<'_> {
    /// The value of an expression, where `left` further calls may be open.
    #[cycle(tree)]
    #[tactic(auto, using(crate::proofs::Halting::passed_on), unfolding(tracer_lang::specs::Meaning::expression_meaning))]
    fn expression(&self, alloc: Global, e: &Expr, left: u32, p: &mut Progress) -> Result<u32, Halt>
        requires { FitsExpression (counts_of self.now) (length p.old.locals.items)
            (expression_of e.now) }
        ensures value { IfOk result (λ v.
            expression_meaning (at_machine self.now.machine.now) (enter_at self.now left)
            (expression_of e.now) (now_of p.old) ≡ Goes v (now_of p.new)) }
        ensures halt { IfErr result (λ h. HaltsAt
            (expression_meaning (at_machine self.now.machine.now) (enter_at self.now left)
            (expression_of e.now) (now_of p.old)) h (now_of p.new)) }
        ensures kept { OnOk result (KeepsBody p.old p.new) }
        ensures units { p.new.units ≤ p.old.units }
    {
        match e {
            Expr::Number(value) => Ok(*value),
            Expr::Local(index) => Ok(p.locals[*index as usize]),
            Expr::Register(index) => Ok(self.machine.x[*index as usize]),
            Expr::Pc => Ok(self.machine.pc),
            Expr::Load(op, address) => {
                let address = self.expression(alloc, address, left, p)?;
                p.load(*op, address)
            }
            Expr::Operation(operator, first, second) => {
                let a = self.expression(alloc, first, left, p)?;
                let b = self.expression(alloc, second, left, p)?;
                Ok(operator_value(*operator, a, b))
            }
            Expr::IsZero(of) => {
                let value = self.expression(alloc, of, left, p)?;
                Ok(u32::from(value == 0))
            }
            Expr::Call(function, arguments) => self.call(alloc, *function, arguments, left, p),
            Expr::Sys(code, value) => {
                let code = self.expression(alloc, code, left, p)?;
                let value = self.expression(alloc, value, left, p)?;
                p.system_call(self.machine, code, value)
            }
        }
    }

    /// What a function gives for some arguments.
    #[cycle(tree)]
    #[tactic(auto, using(crate::proofs::Halting::halt_laws), unfolding(tracer_lang::specs::Meaning::arguments_meaning))]
    fn call(
        &self,
        alloc: Global,
        function: u32,
        arguments: &Args,
        left: u32,
        p: &mut Progress,
    ) -> Result<u32, Halt>
        requires known { function < length (counts_of self.now) }
        requires count { argument_count (arguments_of arguments.now)
            ≡ slice_index (counts_of self.now) function }
        requires fits { FitsArguments (counts_of self.now) (length p.old.locals.items)
            (arguments_of arguments.now) }
        ensures value { IfOk result (λ v.
            arguments_meaning (at_machine self.now.machine.now) (enter_at self.now left)
            (arguments_of arguments.now) [] (enter_at self.now left function) (now_of p.old)
            ≡ Goes v (now_of p.new)) }
        ensures halt { IfErr result (λ h. HaltsAt
            (arguments_meaning (at_machine self.now.machine.now) (enter_at self.now left)
            (arguments_of arguments.now) [] (enter_at self.now left function) (now_of p.old))
            h (now_of p.new)) }
        ensures kept { OnOk result (KeepsBody p.old p.new) }
        ensures units { p.new.units ≤ p.old.units }
    {
        let mut values = Vec::new(alloc);
        let mut rest = arguments;
        while let Args::And(first, after) = rest {
            values.push(self.expression(alloc, first, left, p)?)?;
            rest = after;
        }
        self.enter(alloc, function, values, left, p)
    }

    /// What a function gives for the values of its parameters.
    #[cycle(tree)]
    #[tactic(auto, using(crate::proofs::Entering::enter_laws))]
    fn enter(
        &self,
        alloc: Global,
        function: u32,
        values: Vec<u32>,
        left: u32,
        p: &mut Progress,
    ) -> Result<u32, Halt>
        requires known { function < length (counts_of self.now) }
        requires count { length values.items ≡ slice_index (counts_of self.now) function }
        ensures value { IfOk result (λ v.
            enter_at self.now left function values.items (now_of p.old) ≡ Goes v (now_of p.new)) }
        ensures halt { IfErr result (λ h. HaltsAt
            (enter_at self.now left function values.items (now_of p.old)) h (now_of p.new)) }
        ensures kept { OnOk result (KeepsBody p.old p.new) }
        ensures units { p.new.units ≤ p.old.units }
    {
        if left == 0 {
            return Err(Halt::Ended(TracerEnd::TooDeep));
        }
        if p.units == 0 {
            return Err(Halt::Ended(TracerEnd::OverBudget));
        }
        p.units -= 1;
        let function = &self.script.functions.as_slice()[function as usize];
        let mut locals = values;
        locals.resize(function.locals as usize, 0)?;
        let caller = mem::replace(&mut p.locals, locals);
        let value = match self.statements(alloc, &function.body, left - 1, p) {
            Ok(()) => 0,
            Err(Halt::Returned(value)) => value,
            Err(Halt::Ended(end)) => return Err(Halt::Ended(end)),
            Err(Halt::Memory) => return Err(Halt::Memory),
        };
        p.locals = caller;
        Ok(value)
    }

    /// Does a statement.
    #[cycle(tree)]
    #[tactic(auto, using(crate::proofs::Halting::passed_on), unfolding(tracer_lang::specs::Meaning::statement_meaning))]
    fn statement(&self, alloc: Global, s: &Stmt, left: u32, p: &mut Progress) -> Result<(), Halt>
        requires { FitsStatement (counts_of self.now) (length p.old.locals.items)
            (statement_of s.now) }
        ensures done { OnOk result
            (statement_meaning (at_machine self.now.machine.now) (enter_at self.now left)
            (statement_of s.now) (now_of p.old) ≡ Goes 0 (now_of p.new)) }
        ensures halt { IfErr result (λ h. HaltsAt
            (statement_meaning (at_machine self.now.machine.now) (enter_at self.now left)
            (statement_of s.now) (now_of p.old)) h (now_of p.new)) }
        ensures kept { OnOk result (KeepsBody p.old p.new) }
        ensures units { p.new.units ≤ p.old.units }
    {
        match s {
            Stmt::Emit(value) => {
                let word = self.expression(alloc, value, left, p)?;
                p.emit(word)
            }
            Stmt::Set(index, value) => {
                let value = self.expression(alloc, value, left, p)?;
                p.locals[*index as usize] = value;
                Ok(())
            }
            Stmt::Do(body) => self.statements(alloc, body, left, p),
            Stmt::If(condition, first, second) => {
                if self.expression(alloc, condition, left, p)? != 0 {
                    self.statement(alloc, first, left, p)
                } else {
                    self.statement(alloc, second, left, p)
                }
            }
            Stmt::While(condition, body) => self.turns(alloc, condition, body, left, p),
            Stmt::Store(op, address, value) => {
                let address = self.expression(alloc, address, left, p)?;
                let value = self.expression(alloc, value, left, p)?;
                p.store(*op, address, value)
            }
            Stmt::Return(value) => {
                let value = self.expression(alloc, value, left, p)?;
                Err(Halt::Returned(value))
            }
            Stmt::Stop(value) => {
                let value = self.expression(alloc, value, left, p)?;
                Err(Halt::Ended(TracerEnd::User(value)))
            }
            Stmt::Run(value) => {
                self.expression(alloc, value, left, p)?;
                Ok(())
            }
        }
    }

    /// Does statements as long as a condition is not 0.
    #[cycle(tree)]
    #[tactic(auto, using(crate::proofs::Turning::turn_laws))]
    fn turns(
        &self,
        alloc: Global,
        condition: &Expr,
        body: &Block,
        left: u32,
        p: &mut Progress,
    ) -> Result<(), Halt>
        requires condition { FitsExpression (counts_of self.now) (length p.old.locals.items)
            (expression_of condition.now) }
        requires body { FitsStatements (counts_of self.now) (length p.old.locals.items)
            (statements_of body.now) }
        ensures done { OnOk result (turns
            (expression_meaning (at_machine self.now.machine.now) (enter_at self.now left)
            (expression_of condition.now))
            (statements_meaning (at_machine self.now.machine.now) (enter_at self.now left)
            (statements_of body.now))
            p.old.units (now_of p.old) ≡ Goes 0 (now_of p.new)) }
        ensures halt { IfErr result (λ h. HaltsAt (turns
            (expression_meaning (at_machine self.now.machine.now) (enter_at self.now left)
            (expression_of condition.now))
            (statements_meaning (at_machine self.now.machine.now) (enter_at self.now left)
            (statements_of body.now))
            p.old.units (now_of p.old)) h (now_of p.new)) }
        ensures kept { OnOk result (KeepsBody p.old p.new) }
        ensures units { p.new.units ≤ p.old.units }
    {
        while self.expression(alloc, condition, left, p)? != 0 {
            if p.units == 0 {
                return Err(Halt::Ended(TracerEnd::OverBudget));
            }
            p.units -= 1;
            self.statements(alloc, body, left, p)?;
        }
        Ok(())
    }

    /// Does statements in order.
    #[cycle(tree)]
    #[tactic(auto, using(crate::proofs::Halting::passed_from), unfolding(tracer_lang::specs::Meaning::statements_meaning))]
    pub(crate) fn statements(
        &self,
        alloc: Global,
        block: &Block,
        left: u32,
        p: &mut Progress,
    ) -> Result<(), Halt>
        requires { FitsStatements (counts_of self.now) (length p.old.locals.items)
            (statements_of block.now) }
        ensures done { OnOk result
            (statements_meaning (at_machine self.now.machine.now) (enter_at self.now left)
            (statements_of block.now) (now_of p.old) ≡ Goes 0 (now_of p.new)) }
        ensures halt { IfErr result (λ h. HaltsAt
            (statements_meaning (at_machine self.now.machine.now) (enter_at self.now left)
            (statements_of block.now) (now_of p.old)) h (now_of p.new)) }
        ensures kept { OnOk result (KeepsBody p.old p.new) }
        ensures units { p.new.units ≤ p.old.units }
    {
        let mut rest = block;
        while let Block::And(first, after) = rest {
            self.statement(alloc, first, left, p)?;
            rest = after;
        }
        Ok(())
    }
}
