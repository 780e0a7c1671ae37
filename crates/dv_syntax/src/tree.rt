//! Syntax trees: what a model text says. Items are sorted by kind; parentheses are kept, and the
//! offsets that refusals name. An offset is the number of bytes of the text before a token.

ghost use Rattle.std.specs.Prelude.{◌≡◌};
ghost use Rattle.dv_syntax.specs.Operators.{class_of, is_comparison};

use dv_bag::{Change, Discipline};
use dv_lex::Numeral;

/// The version of the language that a header says.
#[derive(Clone, Copy, PartialEq, Eq)]
pub enum Version {
    /// Version 1, in which there are no queues.
    First,
    /// Version 2, which has queues.
    Second,
    /// Version 3, which has short forms besides.
    Third,
}

/// An occurrence of a name: its number in the table of names, and its offset.
#[derive(Clone, Copy, PartialEq, Eq)]
pub struct Name {
    /// Its number in the table of names.
    pub number: u32,
    /// The offset of the name, in bytes of the text.
    pub offset: u32,
}

/// An occurrence of a number.
#[derive(Clone, Copy, PartialEq, Eq)]
pub struct Number {
    /// The value.
    pub value: Numeral,
    /// The offset of the number, in bytes of the text.
    pub offset: u32,
}

/// An operator before its operand.
#[derive(Clone, Copy, PartialEq, Eq)]
pub enum Prefix {
    /// `-`
    Minus,
    /// `not`
    Not,
}

/// An operator between two operands.
#[derive(Clone, Copy, PartialEq, Eq)]
pub enum Operator {
    /// `or`
    Or,
    /// `and`
    And,
    /// `+`
    Add,
    /// `-`
    Subtract,
    /// `*`
    Multiply,
    /// `/`
    Divide,
    /// `%`
    Remainder,
    /// `=`
    Equal,
    /// `!=`
    Unequal,
    /// `<`
    Less,
    /// `<=`
    AtMost,
    /// `>`
    Greater,
    /// `>=`
    AtLeast,
}

/// What an operator between two operands takes, and what it gives.
#[derive(Clone, Copy, PartialEq, Eq)]
pub enum OperatorClass {
    /// `or` and `and`: a truth value of two.
    Logic,
    /// `=` and `!=`: whether two values of one type are the same.
    Equality,
    /// `<`, `<=`, `>` and `>=`: whether two numbers are in this order.
    Order,
    /// `+`, `-`, `*`, `/` and `%`: a number of two.
    Arithmetic,
}

impl Operator {
    /// The class of this operator.
    pub fn class(self) -> OperatorClass
        ensures { result ≡ class_of self }
    {
        match self {
            Operator::Or | Operator::And => OperatorClass::Logic,
            Operator::Equal | Operator::Unequal => OperatorClass::Equality,
            Operator::Less | Operator::AtMost | Operator::Greater | Operator::AtLeast => {
                OperatorClass::Order
            }
            Operator::Add
            | Operator::Subtract
            | Operator::Multiply
            | Operator::Divide
            | Operator::Remainder => OperatorClass::Arithmetic,
        }
    }
}

impl OperatorClass {
    /// Whether an operator of this class compares two values.
    pub fn is_comparison(self) -> bool
        ensures { result ≡ is_comparison self }
    {
        match self {
            OperatorClass::Equality | OperatorClass::Order => true,
            OperatorClass::Logic | OperatorClass::Arithmetic => false,
        }
    }
}

/// What a call asks of a collection.
#[derive(Clone, Copy, PartialEq, Eq)]
pub enum BagCall {
    /// The number of its values, each copy counted.
    Size,
    /// The sum of its values, each copy added.
    Sum,
    /// Its least value.
    Least,
    /// Its greatest value.
    Most,
    /// The first value of a queue.
    Front,
}

/// What a statement of a keyword and a name does.
#[derive(Clone, Copy, PartialEq, Eq)]
pub enum Command {
    /// It goes to a phase.
    Goto,
    /// It removes the first value of a queue.
    Pop,
}

/// An expression. A node has the offset of its first token unless an operand has it.
#[derive(Drop)]
pub enum Expr {
    /// A number.
    Literal(Number),
    /// `true` or `false`
    TruthValue {
        /// The offset of the word, in bytes of the text.
        offset: u32,
        /// The truth value.
        value: bool,
    },
    /// A name that is read: of a variable, a flag, or the variable of a loop.
    Named(Name),
    /// An expression in parentheses.
    Parens {
        /// The offset of the opening parenthesis, in bytes of the text.
        offset: u32,
        /// The expression inside.
        inner: Box<Expr>,
    },
    /// An operator with its operand.
    Prefixed {
        /// The operator.
        operator: Prefix,
        /// The offset of the operator, in bytes of the text.
        offset: u32,
        /// What it is applied to.
        operand: Box<Expr>,
    },
    /// Two operands with an operator between them.
    Binary {
        /// The operator.
        operator: Operator,
        /// The operand before it.
        left: Box<Expr>,
        /// The operand behind it.
        right: Box<Expr>,
    },
    /// `size(bag)`, and `sum`, `least`, `most` and `front` alike
    Call {
        /// What is asked.
        call: BagCall,
        /// The offset of the call's word, in bytes of the text.
        offset: u32,
        /// The name of the bag or the queue.
        bag: Name,
    },
    /// `elapsed`: the ticks since the last transition
    Elapsed {
        /// The offset of `elapsed`, in bytes of the text.
        offset: u32,
    },
    /// `times(value, bag)`: how often the value is in the bag
    Times {
        /// The offset of `times`, in bytes of the text.
        offset: u32,
        /// The value that is counted.
        value: Box<Expr>,
        /// The name of the bag.
        bag: Name,
    },
}

/// A statement. An offset is that of its first word.
#[derive(Drop)]
#[cycle(statements)]
pub enum Stmt {
    /// `variable := value;`
    Assign {
        /// The variable or the flag.
        variable: Name,
        /// What it holds then.
        value: Expr,
    },
    /// `goto phase;` or `pop queue;`
    Command {
        /// What is done.
        command: Command,
        /// The offset of the first word, in bytes of the text.
        offset: u32,
        /// The phase or the queue.
        name: Name,
    },
    /// `send port value;`
    Send {
        /// The offset of `send`, in bytes of the text.
        offset: u32,
        /// The output port.
        port: Name,
        /// What is sent.
        value: Expr,
    },
    /// `if condition { .. }`
    If {
        /// The offset of `if`, in bytes of the text.
        offset: u32,
        /// What has to be true.
        condition: Expr,
        /// What is done if it is true.
        then_block: Block,
    },
    /// `if condition { .. } else { .. }`
    IfElse {
        /// The offset of `if`, in bytes of the text.
        offset: u32,
        /// What is asked.
        condition: Expr,
        /// What is done if it is true.
        then_block: Block,
        /// What is done if it is false.
        else_block: Block,
    },
    /// `for variable in bag { .. }`
    For {
        /// The offset of `for`, in bytes of the text.
        offset: u32,
        /// The variable that has each value, one after the other.
        variable: Name,
        /// The collection or the input port with the values.
        bag: Name,
        /// What is done for each value.
        block: Block,
    },
    /// `add value to bag;`, `drop value from bag;` or `push value to queue;`
    Change {
        /// What is done.
        change: Change,
        /// The offset of the first word, in bytes of the text.
        offset: u32,
        /// The value that is added, dropped or pushed.
        value: Expr,
        /// The bag or the queue.
        collection: Name,
    },
}

/// Statements in braces.
#[derive(Drop)]
#[cycle(statements)]
pub struct Block {
    /// The statements, in the order of the text.
    pub statements: Vec<Stmt>,
}

impl Block {
    /// Whether a `goto` runs wherever this block runs to its end. A loop may have nothing to run
    /// for.
    pub fn always_goes(&self) -> bool {
        for statement in &self.statements {
            let goes = match statement {
                Stmt::Command { command, .. } => match command {
                    Command::Goto => true,
                    Command::Pop => false,
                },
                Stmt::IfElse {
                    then_block,
                    else_block,
                    ..
                } => then_block.always_goes() && else_block.always_goes(),
                Stmt::Assign { .. }
                | Stmt::Send { .. }
                | Stmt::If { .. }
                | Stmt::For { .. }
                | Stmt::Change { .. } => false,
            };
            if goes {
                return true;
            }
        }
        false
    }
}

/// A bound of a range or a start value: a number, with or without a minus sign.
#[derive(Clone, Copy, PartialEq, Eq)]
pub struct Bound {
    /// The offset of the minus sign, if there is one, in bytes of the text.
    pub minus: Option<u32>,
    /// The number without its sign.
    pub magnitude: Number,
}

/// `var name: low..high = start;`
#[derive(Clone, Copy, PartialEq, Eq)]
pub struct Variable {
    /// The name.
    pub name: Name,
    /// The least number that it may hold.
    pub low: Bound,
    /// The greatest number that it may hold.
    pub high: Bound,
    /// The number that it holds at the start.
    pub start: Bound,
}

/// `flag name = start;`
#[derive(Clone, Copy, PartialEq, Eq)]
pub struct Flag {
    /// The name.
    pub name: Name,
    /// The truth value at the start.
    pub start: bool,
}

/// `bag name capacity;` or `queue name capacity;`
#[derive(Clone, Copy, PartialEq, Eq)]
pub struct StateCollection {
    /// Whether it is a bag or a queue.
    pub discipline: Discipline,
    /// The name.
    pub name: Name,
    /// The most values that it may hold, copies counted.
    pub capacity: Number,
}

/// What declares a name that ports, variables, flags, bags and queues share.
#[derive(Clone, Copy, PartialEq, Eq)]
pub enum Declaration {
    /// `in port;`
    In(Name),
    /// `out port;`
    Out(Name),
    /// `var name: low..high = start;`
    Var(Variable),
    /// `flag name = start;`
    Flag(Flag),
    /// `bag name capacity;` or `queue name capacity;`
    Held(StateCollection),
}

/// `phases first, second, ..;` and the offset of its first word.
#[derive(Drop)]
pub struct Phases {
    /// The offset of `phases`, in bytes of the text.
    pub offset: u32,
    /// The names of the phases, in the order of the text.
    pub names: Vec<Name>,
}

/// `start phase;` and the offset of its first word.
#[derive(Clone, Copy, PartialEq, Eq)]
pub struct Start {
    /// The offset of `start`, in bytes of the text.
    pub offset: u32,
    /// The phase at the start.
    pub phase: Name,
}

/// How long a phase is held, in ticks.
#[derive(Drop)]
pub enum Ticks {
    /// The hold never ends.
    Forever,
    /// The hold ends after as many ticks as the expression gives.
    After(Expr),
}

/// `hold phase: ticks;` and the offset of its first word.
#[derive(Drop)]
pub struct Hold {
    /// The offset of `hold`, in bytes of the text.
    pub offset: u32,
    /// The phase that is held.
    pub phase: Name,
    /// How long it is held.
    pub ticks: Ticks,
}

/// What a rule is for.
#[derive(Clone, Copy, PartialEq, Eq)]
pub enum RuleSort {
    /// It sends, before the transition at the end of a hold.
    Output,
    /// It changes the state at the end of a hold.
    Internal,
    /// It changes the state when something arrives before the end of a hold.
    External,
    /// It changes the state when something arrives at the end of a hold.
    Confluent,
}

/// `output phase { .. }`, and `internal`, `external` and `confluent` alike
#[derive(Drop)]
pub struct Rule {
    /// What the rule is for.
    pub sort: RuleSort,
    /// The phase that has the rule.
    pub phase: Name,
    /// Its statements.
    pub body: Block,
}

/// `atomic name { .. }`: its items by what they say, each kind in the order of the text.
#[derive(Drop)]
pub struct Atomic {
    /// The name of the model.
    pub name: Name,
    /// What declares ports, variables, flags, bags and queues.
    pub declarations: Vec<Declaration>,
    /// The `phases` items.
    pub phases: Vec<Phases>,
    /// The `start` items.
    pub starts: Vec<Start>,
    /// The `hold` items.
    pub holds: Vec<Hold>,
    /// The rules.
    pub rules: Vec<Rule>,
}

/// An end of a link: a port of a part, or of the coupled model itself where there is no part.
#[derive(Clone, Copy, PartialEq, Eq)]
pub struct End {
    /// The name of the part; none for the model itself.
    pub part: Option<Name>,
    /// The name of the port.
    pub port: Name,
}

/// `part name: model;`
#[derive(Clone, Copy, PartialEq, Eq)]
pub struct Part {
    /// The name of the part.
    pub name: Name,
    /// The name of its model.
    pub model: Name,
}

/// `link from -> to;` and the offset of `link`.
#[derive(Clone, Copy, PartialEq, Eq)]
pub struct Link {
    /// The offset of `link`, in bytes of the text.
    pub offset: u32,
    /// The end at which values are sent.
    pub from: End,
    /// The end at which they arrive.
    pub to: End,
}

/// `coupled name { .. }`: its items by what they say, each kind in the order of the text.
#[derive(Drop)]
pub struct Coupled {
    /// The name of the model.
    pub name: Name,
    /// The input ports.
    pub inputs: Vec<Name>,
    /// The output ports.
    pub outputs: Vec<Name>,
    /// The parts.
    pub parts: Vec<Part>,
    /// The links.
    pub links: Vec<Link>,
}

/// A model.
#[derive(Drop)]
pub enum Model {
    /// An atomic model, which has phases and rules.
    Atomic(Atomic),
    /// A coupled model, which has parts and links.
    Coupled(Coupled),
}

/// A model text: its models in order, and the name of the root.
#[derive(Drop)]
pub struct File {
    /// The models, in the order of the text.
    pub models: Vec<Model>,
    /// The name of the root.
    pub root: Name,
}
