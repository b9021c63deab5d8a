//! The code of expressions, statements and bodies, by recursion over the tree. A jump that passes
//! code is written once that code stands.

ghost use Rattle.std.specs.Prelude.{◌≡◌, ◌-◌, ◌<◌, ◌++◌, length, slice_set, OnOk};
ghost use Rattle.tracer_lang.specs.Tree.{expression_of, arguments_of, statement_of, statements_of, function_of};
ghost use Rattle.tracer_lang.specs.Limits.{FitsExpression, FitsArguments, FitsStatement, FitsStatements};
ghost use Rattle.tracer_compile.specs.Blocks as blocks;
ghost use Rattle.tracer_compile.specs.Code.{expression_code, arguments_code, statement_code, statements_code, choice_code, while_code, body_code, call_block};
ghost use Rattle.tracer_compile.specs.Scopes.{scope_of, counts_of};

use crate::blocks;
use crate::instructions::{add_number, jump_back, jump_on, skip_if};
use crate::roles::Role;
use crate::scope::Scope;
use sl_base::Memory;
use sl_model::{BranchOp, Instr};
use tracer_lang::{Args, Block, Expr, Function, Stmt};

/// The copied word that is the program counter.
const COPIED_PC: u32 = 32;

/// The jump at a place now leads to the end of the code.
fn lead_here(code: &mut Vec<Instr>, place: usize)
    requires { place < length code.old.items }
    ensures { code.new.items
        ≡ slice_set code.old.items place (blocks.jump_on (length code.old.items - place)) }
{
    code[place] = jump_on(code.len() - place);
}

/// Enters the body of a function, of which the arguments are the topmost temporaries.
#[tactic(auto, unfolding(crate::specs::Code::call_block))]
fn call(code: &mut Vec<Instr>, f: &Function, address: u32) -> Result<(), Memory>
    ensures { OnOk result
        (code.new.items ≡ code.old.items ++ call_block (function_of f.now) address) }
{
    blocks::depth(code)?;
    blocks::unit(code)?;
    blocks::zeros(code, f.locals.saturating_sub(f.parameters))?;
    blocks::enter(code, f.locals, address)
}

impl Scope<'_> {
    /// The code of an expression, which leaves its value in x10.
    #[cycle(expressions)]
    #[tactic(auto, unfolding(crate::specs::Code::expression_code))]
    fn expression(&self, code: &mut Vec<Instr>, e: &Expr) -> Result<(), Memory>
        requires { FitsExpression (counts_of self.now) self.now.locals (expression_of e.now) }
        ensures { OnOk result (code.new.items
            ≡ code.old.items ++ expression_code (scope_of self.now) (expression_of e.now)) }
    {
        match e {
            Expr::Number(value) => blocks::constant(code, Role::Value, *value),
            Expr::Local(index) => blocks::local(code, *index),
            Expr::Register(index) => blocks::copied(code, *index),
            Expr::Pc => blocks::copied(code, COPIED_PC),
            Expr::Load(op, address) => {
                self.expression(code, address)?;
                blocks::load(code, *op)
            }
            Expr::Operation(operator, first, second) => {
                self.expression(code, first)?;
                blocks::push(code, Role::Value)?;
                self.expression(code, second)?;
                blocks::pop(code, Role::First)?;
                blocks::operator(code, *operator)
            }
            Expr::IsZero(of) => {
                self.expression(code, of)?;
                blocks::truth(code, BranchOp::Beq, Role::Value, Role::Zero)
            }
            Expr::Call(function, arguments) => {
                self.arguments(code, arguments)?;
                let function = *function as usize;
                call(code, &self.functions[function], self.addresses[function])
            }
            Expr::Sys(number, value) => {
                self.expression(code, number)?;
                blocks::push(code, Role::Value)?;
                self.expression(code, value)?;
                blocks::pop(code, Role::Detail)?;
                blocks::barred(code)?;
                blocks::break_call(code)
            }
        }
    }

    /// The code of the arguments of a call, which become temporaries.
    #[cycle(expressions)]
    #[tactic(auto, unfolding(crate::specs::Code::arguments_code))]
    fn arguments(&self, code: &mut Vec<Instr>, arguments: &Args) -> Result<(), Memory>
        requires { FitsArguments (counts_of self.now) self.now.locals (arguments_of arguments.now) }
        ensures { OnOk result (code.new.items
            ≡ code.old.items ++ arguments_code (scope_of self.now) (arguments_of arguments.now)) }
    {
        let mut rest = arguments;
        while let Args::And(first, after) = rest {
            self.expression(code, first)?;
            blocks::push(code, Role::Value)?;
            rest = after;
        }
        Ok(())
    }

    /// The code of a statement.
    #[cycle(statements)]
    #[tactic(auto, unfolding(crate::specs::Code::statement_code))]
    fn statement(&self, code: &mut Vec<Instr>, s: &Stmt) -> Result<(), Memory>
        requires { FitsStatement (counts_of self.now) self.now.locals (statement_of s.now) }
        ensures { OnOk result (code.new.items
            ≡ code.old.items ++ statement_code (scope_of self.now) (statement_of s.now)) }
    {
        match s {
            Stmt::Emit(value) => {
                self.expression(code, value)?;
                blocks::emit(code)
            }
            Stmt::Set(index, value) => {
                self.expression(code, value)?;
                blocks::set(code, *index)
            }
            Stmt::Do(body) => self.statements(code, body),
            Stmt::If(condition, first, second) => self.choice(code, condition, first, second),
            Stmt::While(condition, body) => self.turns(code, condition, body),
            Stmt::Store(op, address, value) => {
                self.expression(code, address)?;
                blocks::push(code, Role::Value)?;
                self.expression(code, value)?;
                blocks::pop(code, Role::Detail)?;
                blocks::store(code, *op)
            }
            Stmt::Return(value) => {
                self.expression(code, value)?;
                blocks::leave(code, self.locals)
            }
            Stmt::Stop(value) => {
                self.expression(code, value)?;
                blocks::stop(code)
            }
            Stmt::Run(value) => self.expression(code, value),
        }
    }

    /// The code of a choice.
    #[cycle(statements)]
    fn choice(
        &self,
        code: &mut Vec<Instr>,
        condition: &Expr,
        first: &Stmt,
        second: &Stmt,
    ) -> Result<(), Memory>
        requires condition { FitsExpression (counts_of self.now) self.now.locals
            (expression_of condition.now) }
        requires first { FitsStatement (counts_of self.now) self.now.locals
            (statement_of first.now) }
        requires second { FitsStatement (counts_of self.now) self.now.locals
            (statement_of second.now) }
        ensures { OnOk result (code.new.items
            ≡ code.old.items ++ choice_code
            (expression_code (scope_of self.now) (expression_of condition.now))
            (statement_code (scope_of self.now) (statement_of first.now))
            (statement_code (scope_of self.now) (statement_of second.now))) }
    {
        self.expression(code, condition)?;
        code.push(skip_if(BranchOp::Bne, Role::Value, Role::Zero, 2))?;
        let to_second = code.len();
        code.push(jump_on(0))?;
        self.statement(code, first)?;
        let to_end = code.len();
        code.push(jump_on(0))?;
        lead_here(code, to_second);
        self.statement(code, second)?;
        lead_here(code, to_end);
        Ok(())
    }

    /// The code of a loop.
    #[cycle(statements)]
    fn turns(&self, code: &mut Vec<Instr>, condition: &Expr, body: &Block) -> Result<(), Memory>
        requires condition { FitsExpression (counts_of self.now) self.now.locals
            (expression_of condition.now) }
        requires body { FitsStatements (counts_of self.now) self.now.locals
            (statements_of body.now) }
        ensures { OnOk result (code.new.items
            ≡ code.old.items ++ while_code
            (expression_code (scope_of self.now) (expression_of condition.now))
            (statements_code (scope_of self.now) (statements_of body.now))) }
    {
        let start = code.len();
        self.expression(code, condition)?;
        code.push(skip_if(BranchOp::Bne, Role::Value, Role::Zero, 2))?;
        let to_end = code.len();
        code.push(jump_on(0))?;
        blocks::unit(code)?;
        self.statements(code, body)?;
        let back = code.len() - start;
        code.push(jump_back(back))?;
        lead_here(code, to_end);
        Ok(())
    }

    /// The code of statements in order.
    #[cycle(statements)]
    #[tactic(auto, unfolding(crate::specs::Code::statements_code))]
    fn statements(&self, code: &mut Vec<Instr>, block: &Block) -> Result<(), Memory>
        requires { FitsStatements (counts_of self.now) self.now.locals (statements_of block.now) }
        ensures { OnOk result (code.new.items
            ≡ code.old.items ++ statements_code (scope_of self.now) (statements_of block.now)) }
    {
        let mut rest = block;
        while let Block::And(first, after) = rest {
            self.statement(code, first)?;
            rest = after;
        }
        Ok(())
    }

    /// The code of a body, which returns 0 where its statements return nothing.
    #[tactic(auto, unfolding(crate::specs::Code::body_code))]
    pub(crate) fn body(&self, code: &mut Vec<Instr>, body: &Block) -> Result<(), Memory>
        requires { FitsStatements (counts_of self.now) self.now.locals (statements_of body.now) }
        ensures { OnOk result (code.new.items
            ≡ code.old.items ++ body_code (scope_of self.now) (statements_of body.now)) }
    {
        self.statements(code, body)?;
        code.push(add_number(Role::Value, Role::Zero, 0))?;
        blocks::leave(code, self.locals)
    }
}
