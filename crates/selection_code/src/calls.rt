//! The instructions of calls, of exits, and of the end of a function.
ghost use Rattle.std.specs.Prelude.{◌≡◌, [], ◌∷◌, ◌++◌, true, false, IfOk, OnOk, option_map, option_copied};
ghost use Rattle.cmm_tree.specs.View.{expr_view};
ghost use Rattle.mach_ir.specs.declared.op.Callee.{Callee};
ghost use Rattle.selection_rules.specs.Instructions as emit;
ghost use Rattle.selection_rules.specs.Select.{called_symbol, callee_of, callee_regs, call_of, from_seat, result_seat, seat, tail_result, exit_to_handler, to_seat};
ghost use Rattle.selection_rules.specs.Select.{return_code};
ghost use Rattle.selection_scope.specs.Scoping.{target_view};

use crate::backwards::Backwards;
use bs_words::{Comp, Name, Ret};
use cmm_tree::Expr;
use mach_ir::{Callee, Calling, External, Mark, Op, Reg, Seq};
use selection_scope::outline::{Outline, outline_of};
use selection_scope::row::Regs;
use selection_scope::scope::Target;
use selection_scope::seats::{result_seat, seat};
use std::alloc::{AllocError, Global};

/// The name of an expression that is a symbol: a function that is called by its symbol needs no register.
#[tactic(auto, using(crate::proofs::Outlines::other_symbol))]
pub fn symbol_of(expr: &Expr) -> Option<&Name>
    ensures { option_copied result ≡ called_symbol (expr_view expr.now) }
{
    match outline_of(expr) {
        Outline::Symbol(name) => Some(name),
        Outline::Integer(_) | Outline::Name(_) | Outline::Operator(_, _, _) | Outline::Other =>
            None,
    }
}

/// Whom a call of the expression calls.
fn callee_of(code: &Backwards, callee: &Expr) -> Result<Callee, AllocError>
    ensures { IfOk result (λ whom. whom ≡ callee_of (called_symbol (expr_view callee.now))) }
{
    match symbol_of(callee) {
        Some(name) => Ok(Callee::Symbol(code.copy_of(name)?)),
        None => Ok(Callee::Register),
    }
}

/// The operands of a call: the register of the callee where it is called by one, and the arguments.
fn operands_of(alloc: Global, callee: &Expr, register: Reg, args: &Regs) -> Result<Regs, AllocError>
    ensures { IfOk result (λ all. all ≡ callee_regs
        (called_symbol (expr_view callee.now)) register ++ args.now) }
{
    let mut all = Regs::new(alloc);
    if symbol_of(callee).is_none() {
        all.push(register)?;
    }
    let mut rest = args.as_slice();
    while let [arg, others @ ..] = rest {
        all.push(arg.reg)?;
        rest = others;
    }
    Ok(all)
}

/// What a tail call leaves, where the text drops a value.
fn tail_result(valued: bool, written: Ret) -> Ret
    ensures { result ≡ tail_result valued written }
{
    if valued { written } else { Ret::Unit }
}

/// A call: what it calls, what it is written to give, and whether it takes the place of its function.
#[derive(Clone, Copy)]
pub struct Call {
    /// What it is written to give.
    pub written: Ret,
    /// Whether it takes the place of its function.
    pub tail: bool,
    /// Whether the value of the function is wanted, where the call takes its place.
    pub valued: bool,
    /// The register of the callee.
    pub register: Reg,
    /// The number of the register of what is given.
    pub given: u32,
    /// Where what is given goes.
    pub dest: Reg,
}

impl Backwards {
    /// What is given goes from its seat to a register. The only error is want of memory.
    pub fn from_seat(&mut self, number: u32, given: Ret, to: Reg) -> Result<(), AllocError>
        ensures { OnOk result (self.new ≡ from_seat number given to self.old) }
    {
        match given {
            Ret::Unit => Ok(()),
            Ret::Comp(comp) => self.move_to(seat(0, number, comp), to),
        }
    }

    /// A call that takes the place of its function.
    fn tail_call(&mut self, call: Call, callee: &Expr, args: &Regs) -> Result<(), AllocError>
        ensures { OnOk result (self.new ≡ call_of true call.valued call.written
            (called_symbol (expr_view callee.now)) call.register args.now call.given
            call.dest self.old) }
    {
        let all = operands_of(self.alloc(), callee, call.register, args)?;
        let whom = callee_of(self, callee)?;
        let op = Op::Calling(Calling::TailCall {
            callee: whom,
            result: tail_result(call.valued, call.written),
        });
        let none = Regs::new(self.alloc());
        self.on_rows(op, &all, &none)
    }

    /// A call that comes back.
    fn inner_call(&mut self, call: Call, callee: &Expr, args: &Regs) -> Result<(), AllocError>
        ensures { OnOk result (self.new ≡ call_of false call.valued call.written
            (called_symbol (expr_view callee.now)) call.register args.now call.given
            call.dest self.old) }
    {
        self.from_seat(call.given, call.written, call.dest)?;
        let all = operands_of(self.alloc(), callee, call.register, args)?;
        let results = result_seat(self.alloc(), call.given, call.written)?;
        let whom = callee_of(self, callee)?;
        let op = Op::Calling(Calling::Call {
            callee: whom,
            result: call.written,
        });
        self.on_rows(op, &all, &results)
    }

    /// The call of a function whose arguments are in their seats. The only error is want of memory.
    pub fn call(&mut self, call: Call, callee: &Expr, args: &Regs) -> Result<(), AllocError>
        ensures { OnOk result (self.new ≡ call_of call.tail call.valued call.written
            (called_symbol (expr_view callee.now)) call.register args.now call.given
            call.dest self.old) }
    {
        if call.tail {
            self.tail_call(call, callee, args)
        } else {
            self.inner_call(call, callee, args)
        }
    }

    /// An external call whose arguments are in their seats. The only error is want of memory.
    pub fn external(
        &mut self,
        name: &Name,
        params: Seq<Comp>,
        written: Ret,
        frame: bool,
        args: &Regs,
        results: &Regs,
    ) -> Result<(), AllocError>
        ensures { OnOk result (self.new ≡ emit.external_instruction name.now params written frame args.now
            results.now ∷ self.old) }
    {
        let row = External {
            name: self.copy_of(name)?,
            params,
            result: written,
        };
        self.on_rows(Op::Calling(Calling::External { row, frame }), args, results)
    }

    /// An exit to a handler: the values go from these registers to its parameters. To none there is no code.
    /// The only error is want of memory.
    pub fn exit_to(&mut self, target: Option<&Target>, from: &Regs) -> Result<(), AllocError>
        ensures { OnOk result (self.new ≡ exit_to_handler (option_map target_view
            (option_copied target.entry)) from.now self.old) }
    {
        match target {
            Some(target) => {
                self.bare(Mark::Exit {
                    label: target.number,
                    tries: target.tries,
                })?;
                self.moves_all(from, &target.params)
            }
            None => Ok(()),
        }
    }

    /// What the function gives goes from its register to where the convention gives it back.
    fn to_seat(&mut self, from: Reg, number: u32, given: Ret) -> Result<(), AllocError>
        ensures { OnOk result (self.new ≡ to_seat from number given self.old) }
    {
        match given {
            Ret::Unit => Ok(()),
            Ret::Comp(comp) => self.move_to(from, seat(0, number, comp)),
        }
    }

    /// The end of the function, which has its value in this register.
    /// The only error is want of memory.
    pub fn returns(&mut self, from: Reg, number: u32, given: Ret) -> Result<(), AllocError>
        requires { self.old ≡ [] }
        ensures { OnOk result (self.new ≡ return_code from number given) }
    {
        let values = result_seat(self.alloc(), number, given)?;
        self.give_back(&values)?;
        self.to_seat(from, number, given)
    }
}
