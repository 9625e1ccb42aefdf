ghost use Rattle.std.specs.Prelude.{◌≡◌, ℕ, ◌-◌};
ghost use Rattle.grammar.specs.Productions.{an_exp};
ghost use Rattle.grammar.specs.Steps.{Whole};
ghost use Rattle.grammar.specs.Readers.{text_of, Gives};
ghost use Rattle.grammar.specs.Laying.{part_m, from_m, exp_m, qualified_m, is_zero_m, apply_m, proc_m, bound_m, let_m, if_m, letrec_m, pair_m, binary_m};

use crate::faults::Fault;
use crate::forms::ExpStart;
use crate::next::Next;
use crate::reader::Reader;
use crate::starts::begun;
use crate::tree::{ExpNode, Operator};
use words::{Keyword, Mark};

impl Reader<'_, '_> {
    // An expression of at most `levels` levels. Not one generic function with `ty`: no trait's method may lead back to its caller.
    #[cycle(expressions)]
    pub fn expression(&mut self, levels: u8) -> Result<u16, Fault>
        ensures { Gives (part_m an_exp levels) result self.old self.new }
    {
        let first = self.next()?;
        self.expression_from(first, levels)
    }

    // An expression whose first word is `first`.
    #[cycle(expressions)]
    pub fn expression_from(&mut self, first: Next, levels: u8) -> Result<u16, Fault>
        requires { Whole (text_of self.old) first }
        ensures { Gives (from_m an_exp first levels) result self.old self.new }
    {
        let start = begun(first, levels)?;
        self.expression_form(start, first.place(), levels - 1)
    }

    // The rest of an expression behind its first word, which stands at `at`; its parts have at most `levels` levels.
    #[cycle(expressions)]
    fn expression_form(&mut self, start: ExpStart, at: u16, levels: u8) -> Result<u16, Fault>
        ensures { Gives (exp_m at levels start) result self.old self.new }
    {
        // A match and no table of closures: each form goes on with words of its own.
        match start {
            ExpStart::Number(value) => self.place(ExpNode::Number { at, value }, at),
            ExpStart::Boolean(value) => self.place(ExpNode::Boolean { at, value }, at),
            ExpStart::Variable(name) => self.place(ExpNode::Variable { name }, at),
            ExpStart::From => self.qualified(at),
            ExpStart::IsZero => self.is_zero(at, levels),
            ExpStart::Apply => self.application(at, levels),
            ExpStart::Proc => self.procedure(at, levels),
            ExpStart::Let => self.let_in(at, levels),
            ExpStart::If => self.conditional(at, levels),
            ExpStart::Letrec => self.letrec(at, levels),
            ExpStart::Binary(operator) => self.binary(at, operator, levels),
        }
    }

    // Shares `taken` with the reader of types; what is left is the node.
    fn qualified(&mut self, at: u16) -> Result<u16, Fault>
        ensures { Gives (qualified_m at) result self.old self.new }
    {
        let (module, name) = self.taken()?;
        self.place(ExpNode::From { at, module, name }, at)
    }

    #[cycle(expressions)]
    fn is_zero(&mut self, at: u16, levels: u8) -> Result<u16, Fault>
        ensures { Gives (is_zero_m at levels) result self.old self.new }
    {
        self.expect(Mark::Open)?;
        let part = self.expression(levels)?;
        self.expect(Mark::Shut)?;
        self.place(ExpNode::IsZero { at, part }, at)
    }

    #[cycle(expressions)]
    fn application(&mut self, at: u16, levels: u8) -> Result<u16, Fault>
        ensures { Gives (apply_m at levels) result self.old self.new }
    {
        let operator = self.expression(levels)?;
        let operand = self.expression(levels)?;
        self.expect(Mark::Shut)?;
        self.place(
            ExpNode::Apply {
                at,
                operator,
                operand,
            },
            at,
        )
    }

    #[cycle(expressions)]
    fn procedure(&mut self, at: u16, levels: u8) -> Result<u16, Fault>
        ensures { Gives (proc_m at levels) result self.old self.new }
    {
        let (parameter, of) = self.parameter(levels)?;
        let body = self.expression(levels)?;
        self.place(
            ExpNode::Proc {
                at,
                parameter,
                of,
                body,
            },
            at,
        )
    }

    // What is bound, and the expression that it is bound in.
    #[cycle(expressions)]
    fn bound(&mut self, levels: u8) -> Result<(u16, u16), Fault>
        ensures { Gives (bound_m levels) result self.old self.new }
    {
        self.expect(Mark::Equal)?;
        let bound = self.expression(levels)?;
        self.expect(Keyword::In)?;
        let body = self.expression(levels)?;
        Ok((bound, body))
    }

    #[cycle(expressions)]
    fn let_in(&mut self, at: u16, levels: u8) -> Result<u16, Fault>
        ensures { Gives (let_m at levels) result self.old self.new }
    {
        let name = self.name()?;
        let (bound, body) = self.bound(levels)?;
        self.place(
            ExpNode::Let {
                at,
                name,
                bound,
                body,
            },
            at,
        )
    }

    #[cycle(expressions)]
    fn conditional(&mut self, at: u16, levels: u8) -> Result<u16, Fault>
        ensures { Gives (if_m at levels) result self.old self.new }
    {
        let test = self.expression(levels)?;
        self.expect(Keyword::Then)?;
        let consequent = self.expression(levels)?;
        self.expect(Keyword::Else)?;
        let alternative = self.expression(levels)?;
        self.place(
            ExpNode::If {
                at,
                test,
                consequent,
                alternative,
            },
            at,
        )
    }

    #[cycle(expressions)]
    fn letrec(&mut self, at: u16, levels: u8) -> Result<u16, Fault>
        ensures { Gives (letrec_m at levels) result self.old self.new }
    {
        let result = self.ty(levels)?;
        let name = self.name()?;
        let (parameter, of) = self.parameter(levels)?;
        let (body, rest) = self.bound(levels)?;
        self.place(
            ExpNode::Letrec {
                at,
                result,
                name,
                parameter,
                of,
                body,
                rest,
            },
            at,
        )
    }

    // A pair, whose sides have at most `levels` levels.
    #[cycle(expressions)]
    fn pair(&mut self, levels: u8) -> Result<(u16, u16), Fault>
        ensures { Gives (pair_m levels) result self.old self.new }
    {
        self.expect(Mark::Open)?;
        let left = self.expression(levels)?;
        self.expect(Mark::Comma)?;
        let right = self.expression(levels)?;
        self.expect(Mark::Shut)?;
        Ok((left, right))
    }

    #[cycle(expressions)]
    fn binary(&mut self, at: u16, operator: Operator, levels: u8) -> Result<u16, Fault>
        ensures { Gives (binary_m at operator levels) result self.old self.new }
    {
        let (left, right) = self.pair(levels)?;
        self.place(
            ExpNode::Binary {
                at,
                operator,
                left,
                right,
            },
            at,
        )
    }
}
