//! What each refusal and each fault means, how to avoid it, and an example. `docs/ERRORS.md` has
//! the same words.

ghost use Rattle.std.specs.Prelude.{◌≡◌};
ghost use Rattle.dv_explain.specs.Codes.{codes_of, fault_codes, input_codes, partition_codes, refusal_codes};

use crate::{Example, Explanation};

/// The explanations of the refusals of model texts, in the order of their numbers.
pub fn refusals() -> &'static [Explanation]
    ensures { codes_of result.now ≡ refusal_codes }
{
    REFUSALS
}

/// The explanations of the refusals of inputs, in the order of their numbers.
pub fn input_refusals() -> &'static [Explanation]
    ensures { codes_of result.now ≡ input_codes }
{
    INPUT_REFUSALS
}

/// The explanations of the refusals of partitions, in the order of their numbers.
pub fn partition_refusals() -> &'static [Explanation]
    ensures { codes_of result.now ≡ partition_codes }
{
    PARTITION_REFUSALS
}

/// The explanations of the faults of rules and holds.
pub fn faults() -> &'static [Explanation]
    ensures { codes_of result.now ≡ fault_codes }
{
    FAULTS
}

/// The refusals, in the order of their numbers.
const REFUSALS: &[Explanation] = &[
    Explanation {
        code: "E1",
        words: "The text is not UTF-8. The first byte that is not part of a valid character is named; comments are checked, too. Save the file as UTF-8. A single `é` in an older encoding is enough for this refusal.",
        example: None,
    },
    Explanation {
        code: "E2",
        words: "No token begins with this character. Outside of comments a text consists of names, numbers, reserved words and signs; a byte order mark or a no-break space is none of these. Remove the character.",
        example: Some(Example {
            model: "root $;\n",
            inputs: "",
            horizon: 0,
            limit: 20,
            answer: "E2 line 1",
        }),
    },
    Explanation {
        code: "E3",
        words: "A number is above 9223372036854775807. Write a smaller one. A minus sign is not part of a number, so -2^63 can't be written either: compute it, as `-9223372036854775807 - 1`.",
        example: Some(Example {
            model: "root 9223372036854775808;\n",
            inputs: "",
            horizon: 0,
            limit: 20,
            answer: "E3 line 1",
        }),
    },
    Explanation {
        code: "E4",
        words: "This token is not allowed here. It is the first one that does not fit the grammar; if the text ends too early, its end is named. Look just before it, too: a missing `;`, `:` or `}` is found at the token after it. A reserved word can't be a name; `queue`, `push`, `pop` and `front` are reserved in a text that begins with `version 2;` or `version 3;`, `const`, `each` and `when` in one that begins with `version 3;`, and all of them are names in others. A text may begin with `version 1;`, `version 2;` or `version 3;`, and no other version is known; only version 3 has `else if`. The grammar is in `docs/REFERENCE.md`.",
        example: Some(Example {
            model: "coupled T { part a A; }\nroot T;\n",
            inputs: "",
            horizon: 0,
            limit: 20,
            answer: "E4 line 1",
        }),
    },
    Explanation {
        code: "E5",
        words: "An expression, a block or a loop is nested too deeply. The first token that nests one level too deep is named, such as an opening parenthesis, an operator, `times`, `if` or `for`. Expressions nest at most 64 deep, blocks 16 and loops 3. Compute a part of the expression into a variable first, or join conditions with `and`.",
        example: Some(Example {
            model: "atomic A { bag b 1; phases z; start z; hold z: 1; internal z {\nfor p in b { for q in b { for r in b {\nfor s in b { } } } } } }\nroot A;\n",
            inputs: "",
            horizon: 0,
            limit: 20,
            answer: "E5 line 3",
        }),
    },
    Explanation {
        code: "E6",
        words: "A name is declared twice. The second one is named. The ports, variables, flags, bags and queues of an atomic model all have different names, and the variable of a loop differs from these and from the variables of the loops around it. Models have different names, and so do the phases of a model, its parts, and the ports of a coupled model. A phase has at most one rule of each kind. Rename one of the two.",
        example: Some(Example {
            model: "atomic A { out y; var y: 0..1 = 0; phases z; start z; hold z: 1; }\nroot A;\n",
            inputs: "",
            horizon: 0,
            limit: 20,
            answer: "E6 line 1",
        }),
    },
    Explanation {
        code: "E7",
        words: "This name is unknown. Declare the model, part, port, variable, flag, bag, queue or phase, or correct its spelling; the variable of a loop is known only in the block of the loop.",
        example: Some(Example {
            model: "coupled T { part a: A; }\nroot T;\n",
            inputs: "",
            horizon: 0,
            limit: 20,
            answer: "E7 line 1",
        }),
    },
    Explanation {
        code: "E8",
        words: "The type is wrong. The first token of the expression is named, or a name that can't be used in this place, such as a port where a variable is needed. Arithmetic, `<`, `<=`, `>`, `>=`, `send`, `add`, `drop`, `push`, `times` and holds take numbers; conditions, `not`, `and` and `or` take truth values; `=` and `!=` take two values of one type. A variable takes a number, and a flag a truth value. A bag can be used in `for`, `add`, `drop` and all calls but `front`; a queue in `for`, `push`, `pop`, `size` and `front`; neither can be used elsewhere.",
        example: Some(Example {
            model: "atomic A { phases z; start z; hold z: true; }\nroot A;\n",
            inputs: "",
            horizon: 0,
            limit: 20,
            answer: "E8 line 1",
        }),
    },
    Explanation {
        code: "E9",
        words: "This is not allowed in a rule of this kind. The first token of the statement is named. `send` is for output rules; assignments, `goto`, `add`, `drop`, `push` and `pop` are for the others. `elapsed` can be read in external rules, and an input port in external and confluent rules; elsewhere `elapsed` or the port is named. The variable of a loop can't be assigned: declare a variable for a value that has to be kept.",
        example: Some(Example {
            model: "atomic A { out y; phases z; start z; hold z: 1; internal z { send y 1; } }\nroot A;\n",
            inputs: "",
            horizon: 0,
            limit: 20,
            answer: "E9 line 1",
        }),
    },
    Explanation {
        code: "E10",
        words: "The item `phases`, `start` or the `hold` of a phase is missing, or is written twice. If it is missing, the name of the model is named; if it is written twice, the first word of the second one. Each atomic model has one `phases`, one `start`, and one `hold` for each phase.",
        example: Some(Example {
            model: "atomic A { phases z; start z; }\nroot A;\n",
            inputs: "",
            horizon: 0,
            limit: 20,
            answer: "E10 line 1",
        }),
    },
    Explanation {
        code: "E11",
        words: "A range is empty, a start value is outside of its range, or the hold of the start phase has a fault. The name of the variable is named, or the phase after `start`. Write the low end of a range before its high end, and a start value between them; choose the start values so that the hold of the start phase has no fault.",
        example: Some(Example {
            model: "atomic A { var v: 3..2 = 2; phases z; start z; hold z: 1; }\nroot A;\n",
            inputs: "",
            horizon: 0,
            limit: 20,
            answer: "E11 line 1",
        }),
    },
    Explanation {
        code: "E12",
        words: "A link leads the wrong way. The port is named. A link begins at an output of a part or at an input of `self`, and ends at an input of a part or at an output of `self`.",
        example: Some(Example {
            model: "atomic A { out y; phases z; start z; hold z: 1; }\ncoupled T { part a: A; part b: A; link a.y -> b.y; }\nroot T;\n",
            inputs: "",
            horizon: 0,
            limit: 20,
            answer: "E12 line 2",
        }),
    },
    Explanation {
        code: "E13",
        words: "A part is coupled to itself, or an input of a model to its own output. The word `link` is named. Put a component between the two.",
        example: Some(Example {
            model: "atomic A { in x; out y; phases z; start z; hold z: forever; }\ncoupled T { part a: A;\nlink a.y -> a.x; }\nroot T;\n",
            inputs: "",
            horizon: 0,
            limit: 20,
            answer: "E13 line 3",
        }),
    },
    Explanation {
        code: "E14",
        words: "A link is written twice. The second `link` is named. Remove one of them. To send a value twice, send it twice.",
        example: Some(Example {
            model: "atomic A { out y; phases z; start z; hold z: 1; }\ncoupled T { out o; part a: A; link a.y -> self.o; link a.y -> self.o; }\nroot T;\n",
            inputs: "",
            horizon: 0,
            limit: 20,
            answer: "E14 line 2",
        }),
    },
    Explanation {
        code: "E15",
        words: "A model contains itself, as a part or further inside. The model name of a part on this cycle is named. Use another model for that part; to repeat a model, declare several parts of it.",
        example: Some(Example {
            model: "coupled T { part t: T; }\nroot T;\n",
            inputs: "",
            horizon: 0,
            limit: 20,
            answer: "E15 line 1",
        }),
    },
    Explanation {
        code: "E16",
        words: "The root is atomic. Its name after `root` is named. Put the model into a coupled one, as `coupled Top { part a: A; }`, and make that the root.",
        example: Some(Example {
            model: "atomic A { phases z; start z; hold z: 1; }\nroot A;\n",
            inputs: "",
            horizon: 0,
            limit: 20,
            answer: "E16 line 2",
        }),
    },
    Explanation {
        code: "E17",
        words: "A limit on size is exceeded. The first name beyond the limit is named, or the capacity of a bag or a queue; line 1 if the text is too long. The name of the root is named if the tree of its parts exceeds a limit: it has 1 to 4,096 components; at most 8,192 atomic and coupled models, each counted as often as it is a part, and the root once; and coupled models nest at most 16 deep, the root included. The root is also named, if nothing else is refused, for more than 65,536 links: ways from an output of a component or an input of the root to an input of a component or an output of the root, through the models between. An atomic model has at most 4,096 ports, 4,096 variables, flags, bags and queues together, and 4,096 phases, and a bag or a queue holds 1 to 4,096 numbers; a coupled model has at most 4,096 ports and 4,096 parts; a text 16,777,216 bytes.",
        example: Some(Example {
            model: "coupled T { }\nroot T;\n",
            inputs: "",
            horizon: 0,
            limit: 20,
            answer: "E17 line 2",
        }),
    },
    Explanation {
        code: "E18",
        words: "Memory ran out. This is not a refusal: no place is named, and the beginning of a trace or a listing may have been printed. Run it with more memory, or run a smaller model. A run frees what it has printed.",
        example: None,
    },
];

/// The refusals of inputs, in the order of their numbers.
const INPUT_REFUSALS: &[Explanation] = &[
    Explanation {
        code: "I1",
        words: "The line of an input does not have three fields, or its time is not `TICK` or `TICK.MICRO` in decimal digits, with a tick up to 10^15 and a microstep up to 1,000, or it is not UTF-8. Write `TICK PORT VALUE` or `TICK.MICRO PORT VALUE`, with blanks or tabs between them; a comment begins with `#` at the start of its line.",
        example: Some(Example {
            model: RELAY,
            inputs: "5 x\n",
            horizon: 9,
            limit: 20,
            answer: "I1 line 1",
        }),
    },
    Explanation {
        code: "I2",
        words: "The root has no input port of this name. Inputs come to the ports that the root declares with `in`; correct the name, or declare the port.",
        example: Some(Example {
            model: RELAY,
            inputs: "5 z 1\n",
            horizon: 9,
            limit: 20,
            answer: "I2 line 1",
        }),
    },
    Explanation {
        code: "I3",
        words: "The time is before that of the previous input. Put the lines in the order of their times; a tick without a microstep is microstep 0. Inputs of one time arrive together, and their order does not matter.",
        example: Some(Example {
            model: RELAY,
            inputs: "5 x 1\n4 x 1\n",
            horizon: 9,
            limit: 20,
            answer: "I3 line 2",
        }),
    },
    Explanation {
        code: "I4",
        words: "The value is not a number from -9223372036854775808 to 9223372036854775807 in decimal digits, with `-` before a negative one. A `+` is not allowed.",
        example: Some(Example {
            model: RELAY,
            inputs: "5 x 9223372036854775808\n",
            horizon: 9,
            limit: 20,
            answer: "I4 line 1",
        }),
    },
    Explanation {
        code: "I5",
        words: "The microstep of the input is above the limit of the run. A time is not a decimal fraction: `5.21` is microstep 21 of tick 5. Raise the limit by `--microsteps`, or take a lower microstep or a later tick.",
        example: Some(Example {
            model: RELAY,
            inputs: "5.21 x 1\n",
            horizon: 9,
            limit: 20,
            answer: "I5 line 1",
        }),
    },
];

/// The refusals of partitions, in the order of their numbers.
const PARTITION_REFUSALS: &[Explanation] = &[
    Explanation {
        code: "Q1",
        words: "The partition is not JSON, or not an object with the one key `processes` and a list of lists of strings: a list of the components' paths for each process. Write it as `{\"processes\":[[\"a\",\"b.c\"],[\"d\"]]}`.",
        example: None,
    },
    Explanation {
        code: "Q2",
        words: "The partition names a component that the model does not have. A component is named by its path, from the root's part on, with a dot before each part below, as `plant.tank`; a coupled model is no component.",
        example: None,
    },
    Explanation {
        code: "Q3",
        words: "A component of the model is in no process of the partition, in two processes, or twice in one. Name each component once; `plan` without a partition prints them all.",
        example: None,
    },
    Explanation {
        code: "Q4",
        words: "There is no process, there are more than 256, one of them has no component, or there are more processes than components. Ask for fewer processes, or give each one a component.",
        example: None,
    },
];

/// A model with an input port.
const RELAY: &str =
    "atomic R { in x; phases z; start z; hold z: forever; }\ncoupled T { in x; part r: R; link self.x -> r.x; }\nroot T;\n";

/// The faults.
const FAULTS: &[Explanation] = &[
    Explanation {
        code: "overflow",
        words: "A result is outside -2^63..2^63-1. Compute in smaller steps, or keep the numbers in a range.",
        example: Some(Example {
            model: "atomic A { out y; phases z; start z; hold z: 1; output z { send y 9223372036854775807 + 1; } }\ncoupled T { part a: A; }\nroot T;\n",
            inputs: "",
            horizon: 1,
            limit: 20,
            answer: "1.0 a fault overflow\nwhole 1\n",
        }),
    },
    Explanation {
        code: "divide",
        words: "A division or a remainder by 0. Check first: `if v != 0 and 9 / v > 2` does not divide if `v` is 0.",
        example: Some(Example {
            model: "atomic A { out y; var v: 0..9 = 0; phases z; start z; hold z: 1; output z { send y 1 / v; } }\ncoupled T { part a: A; }\nroot T;\n",
            inputs: "",
            horizon: 1,
            limit: 20,
            answer: "1.0 a fault divide\nwhole 1\n",
        }),
    },
    Explanation {
        code: "range",
        words: "A number that is assigned to a variable is outside its range. Widen the range, or keep the number in it.",
        example: Some(Example {
            model: "atomic A { var v: 0..1 = 0; phases z; start z; hold z: 1; internal z { v := v + 1; } }\ncoupled T { part a: A; }\nroot T;\n",
            inputs: "",
            horizon: 2,
            limit: 20,
            answer: "1.0 a i z v=1\n2.0 a fault range\nwhole 2\n",
        }),
    },
    Explanation {
        code: "empty",
        words: "`least` or `most` of an empty bag, or `front` or `pop` of an empty queue. Check first: `if size(b) > 0 and least(b) = 1` is false if `b` is empty.",
        example: Some(Example {
            model: "atomic A { out y; bag b 1; phases z; start z; hold z: 1; output z { send y least(b); } }\ncoupled T { part a: A; }\nroot T;\n",
            inputs: "",
            horizon: 1,
            limit: 20,
            answer: "1.0 a fault empty\nwhole 1\n",
        }),
    },
    Explanation {
        code: "full",
        words: "An `add` to a bag, or a `push` to a queue, that is full. Declare a greater capacity, or check its `size` first.",
        example: Some(Example {
            model: "atomic A { bag b 1; phases z; start z; hold z: 1; internal z { add 7 to b; } }\ncoupled T { part a: A; }\nroot T;\n",
            inputs: "",
            horizon: 2,
            limit: 20,
            answer: "1.0 a i z b=[7]\n2.0 a fault full\nwhole 2\n",
        }),
    },
    Explanation {
        code: "negative",
        words: "A hold is below 0. Make the hold 0 or more.",
        example: Some(Example {
            model: "atomic A { var v: -1..1 = 1; phases z; start z; hold z: v; internal z { v := -1; } }\ncoupled T { part a: A; }\nroot T;\n",
            inputs: "",
            horizon: 1,
            limit: 20,
            answer: "1.0 a fault negative\nwhole 1\n",
        }),
    },
    Explanation {
        code: "microsteps",
        words: "A hold of 0 at the last microstep of a tick. Make some hold of the loop greater than 0, or give the run more microsteps.",
        example: Some(Example {
            model: "atomic A { phases z; start z; hold z: 0; }\ncoupled T { part a: A; }\nroot T;\n",
            inputs: "",
            horizon: 0,
            limit: 3,
            answer: "0.1 a i z\n0.2 a i z\n0.3 a fault microsteps\nwhole 0\n",
        }),
    },
    Explanation {
        code: "flood",
        words: "The 4,097th `send` of one output rule, or more than 4,096 values that arrive at one input port at one instant, each copy counted. Send fewer values at one instant.",
        example: None,
    },
];
