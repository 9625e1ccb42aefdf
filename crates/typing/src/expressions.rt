ghost use Rattle.std.specs.Prelude.{◌≡◌, ℕ, ◌+◌, ◌-◌, ◌<◌, ◌≤◌, ◌==◌, true, is_some, cond};
ghost use Rattle.grammar.specs.Table.{type_of, type_at, exp_of, exp_at};
ghost use Rattle.typing.specs.Tables.{place_of, placed, form_t, expand_n, form_e, type_n, result_n, Gives, HasType, HasExp};
ghost use Rattle.rules.specs.declared.faults.CheckFault.TheVariants.{Unwanted};
ghost use Rattle.typing.specs.Tables.{is_zero_n, binary_n, apply_n, proc_n, let_n, conditional_n, body_n, letrec_n};

use crate::tables::{BOOL, INT, Tables};
use crate::types::Scope;
use grammar::tree::{ExpNode, Node, Operator, TypeNode};
use language::spans::Span;
use rules::faults::CheckFault;

impl Tables<'_, '_, '_> {
    // The node at `i`, which stands for a written type of at most `levels` levels.
    fn written(&self, i: u16, levels: u8) -> TypeNode
        requires { HasType self.now.given levels i }
        ensures deep { 0 < levels }
        ensures is { type_at levels self.now.given.text.now self.now.given.tree.now i ≡ type_of self.now.given.text.now (type_at (levels - 1) self.now.given.text.now self.now.given.tree.now) result }
        ensures step { expand_n self.now.given levels i ≡ form_t self.now.given (expand_n self.now.given (levels - 1)) result }
    {
        let Node::Type(written) = self.given.tree[i as usize] else {
            unreachable()
        };
        written
    }

    // The node at `i`, which stands for an expression of at most `levels` levels. Expressions stand for what they are by a definition of
    // their own, so this is not one function with `written`.
    fn expression(&self, i: u16, levels: u8) -> ExpNode
        requires { HasExp self.now.given levels i }
        ensures deep { 0 < levels }
        ensures is { exp_at levels self.now.given.text.now self.now.given.tree.now i ≡ exp_of self.now.given.text.now (type_at (levels - 1) self.now.given.text.now self.now.given.tree.now) (exp_at (levels - 1) self.now.given.text.now self.now.given.tree.now) result }
        ensures step { type_n self.now.given levels i ≡ form_e self.now.given (expand_n self.now.given (levels - 1)) (type_n self.now.given (levels - 1)) result }
    {
        let Node::Expression(expression) = self.given.tree[i as usize] else {
            unreachable()
        };
        expression
    }

    // Where the expression at `i` stands in the text.
    #[tactic(auto, unfolding(crate::specs::Tables::placed))]
    fn place(&self, i: u16) -> u16
        ensures { result ≡ placed self.now.given i }
    {
        match self.given.tree.get(usize::from(i)) {
            Some(Node::Expression(expression)) => place_of(*expression),
            _ => 0,
        }
    }

    // The expression at `i` has to have the type that is wanted of it.
    fn want(&self, has: u16, wanted: u16, i: u16) -> Result<(), CheckFault>
        ensures { result ≡ cond (has == wanted) (Ok tt) (Err (Unwanted (placed self.now.given i))) }
    {
        if has == wanted {
            Ok(())
        } else {
            Err(CheckFault::Unwanted(self.place(i)))
        }
    }

    // The number of the written type at `i`.
    pub fn expand(&mut self, scope: Scope, i: u16, levels: u8) -> Result<u16, CheckFault>
        requires { HasType self.old.given levels i }
        ensures { Gives (expand_n self.old.given levels i scope) result self.old self.new }
    {
        match self.written(i, levels) {
            TypeNode::Int { .. } => Ok(INT),
            TypeNode::Bool { .. } => Ok(BOOL),
            TypeNode::Named { name } => {
                self.look(scope.types, name)
                    .ok_or(CheckFault::UnknownType(name.place))
            }
            TypeNode::From { at, module, name } => {
                self.take_type(module, name)
                    .ok_or(CheckFault::UnknownType(at))
            }
            TypeNode::Arrow { at, from, to } => {
                let a = self.expand(scope, from, levels - 1)?;
                let b = self.expand(scope, to, levels - 1)?;
                self.arrow(at, a, b)
            }
        }
    }

    // `zero?`.
    #[cycle(expressions)]
    fn is_zero(&mut self, scope: Scope, part: u16, levels: u8) -> Result<u16, CheckFault>
        requires { HasExp self.old.given levels part }
        ensures { Gives (is_zero_n self.old.given levels part scope) result self.old self.new }
    {
        let a = self.type_of(scope, part, levels)?;
        self.want(a, INT, part)?;
        Ok(BOOL)
    }

    // An operation on a pair.
    #[cycle(expressions)]
    fn binary(
        &mut self,
        scope: Scope,
        op: Operator,
        left: u16,
        right: u16,
        levels: u8,
    ) -> Result<u16, CheckFault>
        requires has_exp { HasExp self.old.given levels left }
        requires has_exp_2 { HasExp self.old.given levels right }
        ensures { Gives (binary_n self.old.given levels op left right scope) result self.old self.new }
    {
        let a = self.type_of(scope, left, levels)?;
        let b = self.type_of(scope, right, levels)?;
        self.want(a, INT, left)?;
        self.want(b, INT, right)?;
        Ok(result_of(op))
    }

    // An application.
    #[cycle(expressions)]
    fn apply(
        &mut self,
        scope: Scope,
        operator: u16,
        operand: u16,
        levels: u8,
    ) -> Result<u16, CheckFault>
        requires has_exp { HasExp self.old.given levels operator }
        requires has_exp_2 { HasExp self.old.given levels operand }
        ensures { Gives (apply_n self.old.given levels operator operand scope) result self.old self.new }
    {
        let f = self.type_of(scope, operator, levels)?;
        let a = self.type_of(scope, operand, levels)?;
        let (from, to) = self
            .entry(f)
            .sides()
            .ok_or(CheckFault::NoArrow(self.place(operator)))?;
        self.want(a, from, operand)?;
        Ok(to)
    }

    // `proc`. Its parts come one by one, since a node's cases have no structs of their own.
    #[cycle(expressions)]
    fn procedure(
        &mut self,
        scope: Scope,
        at: u16,
        parameter: Span,
        of: u16,
        body: u16,
        levels: u8,
    ) -> Result<u16, CheckFault>
        requires has_type { HasType self.old.given levels of }
        requires has_exp { HasExp self.old.given levels body }
        ensures { Gives (proc_n self.old.given levels at parameter of body scope) result self.old self.new }
    {
        let a = self.expand(scope, of, levels)?;
        let inner = self.enter(at, scope, parameter, a)?;
        let b = self.type_of(inner, body, levels)?;
        self.arrow(at, a, b)
    }

    // `let`.
    #[cycle(expressions)]
    fn let_in(
        &mut self,
        scope: Scope,
        at: u16,
        name: Span,
        bound: u16,
        body: u16,
        levels: u8,
    ) -> Result<u16, CheckFault>
        requires has_exp { HasExp self.old.given levels bound }
        requires has_exp_2 { HasExp self.old.given levels body }
        ensures { Gives (let_n self.old.given levels at name bound body scope) result self.old self.new }
    {
        let a = self.type_of(scope, bound, levels)?;
        let inner = self.enter(at, scope, name, a)?;
        self.type_of(inner, body, levels)
    }

    // `if`.
    #[cycle(expressions)]
    fn conditional(
        &mut self,
        scope: Scope,
        test: u16,
        consequent: u16,
        alternative: u16,
        levels: u8,
    ) -> Result<u16, CheckFault>
        requires has_exp { HasExp self.old.given levels test }
        requires has_exp_2 { HasExp self.old.given levels consequent }
        requires has_exp_3 { HasExp self.old.given levels alternative }
        ensures { Gives (conditional_n self.old.given levels test consequent alternative scope) result self.old self.new }
    {
        let a = self.type_of(scope, test, levels)?;
        let b = self.type_of(scope, consequent, levels)?;
        let c = self.type_of(scope, alternative, levels)?;
        self.want(a, BOOL, test)?;
        self.want(c, b, alternative)?;
        Ok(b)
    }

    // The body of a `letrec`, with its parameter at the type `a`: it has to have the type `b`.
    #[cycle(expressions)]
    fn body(
        &mut self,
        scope: Scope,
        at: u16,
        parameter: Span,
        a: u16,
        b: u16,
        body: u16,
        levels: u8,
    ) -> Result<(), CheckFault>
        requires { HasExp self.old.given levels body }
        ensures { Gives (body_n self.old.given levels at parameter a b body scope) result self.old self.new }
    {
        let inner = self.enter(at, scope, parameter, a)?;
        let c = self.type_of(inner, body, levels)?;
        self.want(c, b, body)
    }

    // `letrec`.
    #[cycle(expressions)]
    fn letrec(
        &mut self,
        scope: Scope,
        at: u16,
        name: Span,
        parameter: Span,
        returns: u16,
        of: u16,
        body: u16,
        rest: u16,
        levels: u8,
    ) -> Result<u16, CheckFault>
        requires has_type { HasType self.old.given levels returns }
        requires has_type_2 { HasType self.old.given levels of }
        requires has_exp { HasExp self.old.given levels body }
        requires has_exp_2 { HasExp self.old.given levels rest }
        ensures { Gives (letrec_n self.old.given levels at name parameter returns of body rest scope) result self.old self.new }
    {
        let b = self.expand(scope, returns, levels)?;
        let a = self.expand(scope, of, levels)?;
        let ab = self.arrow(at, a, b)?;
        let outer = self.enter(at, scope, name, ab)?;
        self.body(outer, at, parameter, a, b, body, levels)?;
        self.type_of(outer, rest, levels)
    }

    // The number of the type of the expression at `i`. A match and no table of closures: each form has parts of its own.
    #[cycle(expressions)]
    pub fn type_of(&mut self, scope: Scope, i: u16, levels: u8) -> Result<u16, CheckFault>
        requires { HasExp self.old.given levels i }
        ensures { Gives (type_n self.old.given levels i scope) result self.old self.new }
    {
        match self.expression(i, levels) {
            ExpNode::Number { .. } => Ok(INT),
            ExpNode::Boolean { .. } => Ok(BOOL),
            ExpNode::Variable { name } => {
                self.look(scope.values, name)
                    .ok_or(CheckFault::UnknownValue(name.place))
            }
            ExpNode::From { at, module, name } => {
                self.take_value(module, name)
                    .ok_or(CheckFault::UnknownValue(at))
            }
            ExpNode::IsZero { part, .. } => self.is_zero(scope, part, levels - 1),
            ExpNode::Apply {
                operator,
                operand,
                ..
            } => self.apply(scope, operator, operand, levels - 1),
            ExpNode::If {
                test,
                consequent,
                alternative,
                ..
            } => self.conditional(scope, test, consequent, alternative, levels - 1),
            ExpNode::Binary {
                operator,
                left,
                right,
                ..
            } => self.binary(scope, operator, left, right, levels - 1),
            ExpNode::Proc {
                at,
                parameter,
                of,
                body,
            } => self.procedure(scope, at, parameter, of, body, levels - 1),
            ExpNode::Let {
                at,
                name,
                bound,
                body,
            } => self.let_in(scope, at, name, bound, body, levels - 1),
            ExpNode::Letrec {
                at,
                result,
                name,
                parameter,
                of,
                body,
                rest,
            } => {
                self.letrec(
                    scope,
                    at,
                    name,
                    parameter,
                    result,
                    of,
                    body,
                    rest,
                    levels - 1,
                )
            }
        }
    }
}

// The type of what an operator gives.
fn result_of(op: Operator) -> u16
    ensures { result ≡ result_n op }
{
    match op {
        Operator::Less => BOOL,
        _ => INT,
    }
}

fn place_of(expression: ExpNode) -> u16
    ensures { result ≡ place_of expression }
{
    match expression {
        ExpNode::Variable { name } => name.place,
        ExpNode::Number { at, .. }
        | ExpNode::Boolean { at, .. }
        | ExpNode::From { at, .. }
        | ExpNode::IsZero { at, .. }
        | ExpNode::Apply { at, .. }
        | ExpNode::Proc { at, .. }
        | ExpNode::Let { at, .. }
        | ExpNode::If { at, .. }
        | ExpNode::Letrec { at, .. }
        | ExpNode::Binary { at, .. } => at,
    }
}
