//! Faults of scripts and of records.
ghost use Rattle.std.specs.Prelude.{◌≡◌};
ghost use Rattle.show_faults.specs.Codes.{codes_of, record_codes};

use crate::explanation::Explanation;

const A1: Explanation = Explanation {
    code: "A1",
    name: "TicketTwice",
    arguments: "t",
    meaning: "The record has two draws of ticket t.",
    example: "$ ./qlock replay < examples/refused-record.txt\n\
        A1 TicketTwice 0",
    mistakes: "Two records were joined, and each of them begins with ticket 0: replay\n\
        each by itself. Or a line was copied.",
};

const A2: Explanation = Explanation {
    code: "A2",
    name: "TicketMissing",
    arguments: "t",
    meaning: "The record has n draws, t is below n, and no draw has ticket t. Tickets\n\
        count from 0.",
    example: "$ sed 's/^draw 0 1 1$/draw 0 3 0/' examples/replay-record.txt | ./qlock replay\n\
        A2 TicketMissing 1",
    mistakes: "A part of the record was cut out: its draws have to begin with ticket 0\n\
        and leave none out.",
};

const A3: Explanation = Explanation {
    code: "A3",
    name: "WrongQuorum",
    arguments: "t",
    meaning: "The draw of ticket t names another quorum than the one at place t of the\n\
        plan's cycle. After its end the cycle begins again.",
    example: "$ sed 's/^draw 0 1 1$/draw 0 1 2/' examples/replay-record.txt | ./qlock replay\n\
        A3 WrongQuorum 1",
    mistakes: "The record is that of a run by another plan. Or the quorums' order in\n\
        the coterie was changed after the run.",
};

const A4: Explanation = Explanation {
    code: "A4",
    name: "PassTwice",
    arguments: "p",
    meaning: "Two passes have number p: two clients read the same number in the register.\n\
        So two clients were inside at once, or the register is broken.",
    example: "$ sed 's/^pass 1 1$/pass 1 0/' examples/replay-record.txt | ./qlock replay\n\
        A4 PassTwice 0",
    mistakes: "Two records were joined: replay each by itself. If the record is that of\n\
        a lock of your own, the lock does not exclude. For a run of `./qlock\n\
        run` it is proved that this does not happen.",
};

const A5: Explanation = Explanation {
    code: "A5",
    name: "PassMissing",
    arguments: "p",
    meaning: "The record has q passes, p is below q, and no pass has number p. Numbers\n\
        count from 0.",
    example: "$ sed 's/^pass 1 1$/pass 1 2/' examples/replay-record.txt | ./qlock replay\n\
        A5 PassMissing 1",
    mistakes: "A line of the record was lost. Or a client passed and did not say so.",
};

const A6: Explanation = Explanation {
    code: "A6",
    name: "WrongRegister",
    arguments: "q",
    meaning: "The record has q passes, and its last line has another number than q. Each\n\
        pass increments the register once, so a write was lost, or one too many was\n\
        made.",
    example: "$ sed 's/^register 2$/register 3/' examples/replay-record.txt | ./qlock replay\n\
        A6 WrongRegister 2",
    mistakes: "The last line is that of another run. Or something else than the clients\n\
        wrote the register.",
};

const A7: Explanation = Explanation {
    code: "A7",
    name: "BadLine",
    arguments: "line",
    meaning: "This line of the script or the record is the first that is missing, not\n\
        written as it has to be, or out of place. Lines count from 1, within the\n\
        part. No step of the script was taken.",
    example: "$ ./qlock world < examples/refused-script.txt\n\
        A7 BadLine 1",
    mistakes: "Carriage returns, no newline at the end, or an empty line. A script\n\
        without its line `world CLIENTS LIMIT`. Or a record with a `draw` after\n\
        a `pass`.",
};

/// Returns the explanations of the faults of scripts and records.
pub(crate) fn records() -> &'static [Explanation]
    ensures { codes_of result.now ≡ record_codes }
{
    &[A1, A2, A3, A4, A5, A6, A7]
}
