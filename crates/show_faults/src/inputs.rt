//! Faults of the input and the output as a whole, and of memory.
ghost use Rattle.std.specs.Prelude.{◌≡◌};
ghost use Rattle.show_faults.specs.Codes.{codes_of, input_codes};

use crate::explanation::Explanation;

const I1: Explanation = Explanation {
    code: "I1",
    name: "MissingPart",
    arguments: "k",
    meaning: "The input has fewer parts than the command reads, and part k is the first\n\
        that is missing. Parts count from 1. A line `%%` separates two parts:\n\
        exactly these two characters and a newline.",
    example: "$ ./qlock check < examples/wheel-3.toml\n\
        I1 MissingPart 2",
    mistakes: "The line `%%` ends with a carriage return or has a space after it. The\n\
        text before it has no newline at its end. Or a part was left out:\n\
        `check`, `deal` and `run` read a coterie and a plan, `world` a script\n\
        too, and `replay` a record too. With `-f`, each part is a file:\n\
        `-f coterie.toml -f plan.txt`.",
};

const I2: Explanation = Explanation {
    code: "I2",
    name: "TooLong",
    arguments: "",
    meaning: "The input has more than 16,777,216 bytes. What they are does not matter. If\n\
        one file behind `-f` has more, its name follows.",
    example: "$ head -c 16777217 /dev/zero | ./qlock plan\n\
        I2 TooLong",
    mistakes: "Another file was passed than the one that was meant. Or the voters of a\n\
        large coterie have long names: shorten them.",
};

const I3: Explanation = Explanation {
    code: "I3",
    name: "ReadFault",
    arguments: "",
    meaning: "A read of the standard input failed, or a file behind `-f` can't be opened or\n\
        read. The name of the file follows. Nothing was written.",
    example: "$ ./qlock plan < .\n\
        I3 ReadFault",
    mistakes: "The standard input or the file is a folder, there is no file of this name, or\n\
        it may not be read. Or its device failed: try again.",
};

const I4: Explanation = Explanation {
    code: "I4",
    name: "WriteFault",
    arguments: "",
    meaning: "A write to the standard output failed, or took no byte. A beginning of the\n\
        output may have been written.",
    example: "$ ./qlock make wheel 3 > /dev/full\n\
        I4 WriteFault",
    mistakes: "The disk is full, or the reader of a pipe has ended. Throw away what was\n\
        written, and run the command again.",
};

const I5: Explanation = Explanation {
    code: "I5",
    name: "Arguments",
    arguments: "",
    meaning: "The command line names no shape of `make`, or has too few or too many\n\
        numbers for the shape. Or one of its words is not UTF-8.",
    example: "$ ./qlock make grid 3\n\
        I5 Arguments",
    mistakes: "A shape's name is in capitals. Or a number was left out: `grid` takes\n\
        two, `majority`, `tree` and `wheel` take one, and `cyclic` takes the\n\
        voters and then the base.",
};

const I6: Explanation = Explanation {
    code: "I6",
    name: "UnknownVoter",
    arguments: "i",
    meaning: "Word i behind `without` is not the name of a voter of the coterie. Or, of\n\
        `world`, voter i is the first at which the two coteries list different names.\n\
        Words and voters count from 0.",
    example: "$ ./qlock-show without hub rim9 < examples/wheel-3.toml\n\
        I6 UnknownVoter 1\n\
        rim9: no voter has this name",
    mistakes: "The name is in capitals, or is the number of a voter. Or another coterie\n\
        was passed: names are in the line `voters` of the input. Two coteries have\n\
        to list the same voters in the same order.",
};

const O1: Explanation = Explanation {
    code: "O1",
    name: "OutOfMemory",
    arguments: "",
    meaning: "Memory ran out. Nothing was written. This may come at any point before the\n\
        first write, so it says nothing about the input.",
    example: "$ (ulimit -v N; build/qlock make majority 14)\n\
        O1 OutOfMemory\n\
        for an N that is hardly enough for the program to start",
    mistakes: "The process may use too little memory: see `ulimit -v`, or the limit of\n\
        the container. Allow it more, and run the command again.",
};

/// Returns the explanations of the faults of the input, the output and memory.
pub(crate) fn inputs() -> &'static [Explanation]
    ensures { codes_of result.now ≡ input_codes }
{
    &[I1, I2, I3, I4, I5, I6, O1]
}
