//! Faults of clients and voters in a script, and of runs in threads.
ghost use Rattle.std.specs.Prelude.{◌≡◌};
ghost use Rattle.show_faults.specs.Codes.{codes_of, protocol_codes};

use crate::explanation::Explanation;

const U1: Explanation = Explanation {
    code: "U1",
    name: "NoSuchMessage",
    arguments: "k",
    meaning: "A step of the script delivers message k, and no message with this number was\n\
        sent yet. Messages count from 0, in the order in which they are sent. The\n\
        step does nothing, and the script goes on.",
    example: "$ printf 'world 1 1000\\ndeliver 0\\n' > script.txt\n\
        $ (cat examples/wheel-3-planned.txt; echo %%; cat script.txt) | ./qlock world\n\
        ! U1 NoSuchMessage 0",
    mistakes: "The message is sent by a later step, or its number was counted wrong.\n\
        Run the script up to here: the lines `m K ..` have the numbers.",
};

const U2: Explanation = Explanation {
    code: "U2",
    name: "NoSuchClient",
    arguments: "c",
    meaning: "A step of the script names client c, and no client has this number. Clients\n\
        count from 0, and the script's first line has how many there are.",
    example: "$ printf 'world 1 1000\\nask 1\\n' > script.txt\n\
        $ (cat examples/wheel-3-planned.txt; echo %%; cat script.txt) | ./qlock world\n\
        ! U2 NoSuchClient 1",
    mistakes: "Clients were counted from 1. Or the first number of the line `world` is\n\
        too small.",
};

const U3: Explanation = Explanation {
    code: "U3",
    name: "NoSuchVoter",
    arguments: "v",
    meaning: "A step of the script names voter v, and no voter has this number. Voters\n\
        count from 0, in the order of the coterie.",
    example: "$ printf 'world 1 1000\\nremind-voter 4\\n' > script.txt\n\
        $ (cat examples/wheel-3-planned.txt; echo %%; cat script.txt) | ./qlock world\n\
        ! U3 NoSuchVoter 4",
    mistakes: "Voters were counted from 1. Or a client was meant: `remind-client` takes\n\
        its number.",
};

const U4: Explanation = Explanation {
    code: "U4",
    name: "NoSecondPlan",
    arguments: "",
    meaning: "A step of the script exchanges the plan, and there is no second plan, or it\n\
        was exchanged before. The step does nothing, and the script goes on.",
    example: "$ printf 'world 1 1000\\nexchange\\n' > script.txt\n\
        $ (cat examples/wheel-3-planned.txt; echo %%; cat script.txt) | ./qlock-show world\n\
        refused: U4 NoSecondPlan",
    mistakes: "The input has one coterie and one plan: put the second coterie and its plan\n\
        in front of the script. A script makes one exchange.",
};

const C1: Explanation = Explanation {
    code: "C1",
    name: "Busy",
    arguments: "",
    meaning: "A client is asked to ask while it is not idle: it asks already, or it is\n\
        inside. The call changes nothing.",
    example: "$ printf 'world 1 1000\\nask 0\\nask 0\\n' > script.txt\n\
        $ (cat examples/wheel-3-planned.txt; echo %%; cat script.txt) | ./qlock world\n\
        m 0 request 0 0 1\n\
        m 1 request 0 1 1\n\
        ! C1 Busy",
    mistakes: "The client did not leave or give up before its next request. To send its\n\
        messages again, remind it: `remind-client`.",
};

const C2: Explanation = Explanation {
    code: "C2",
    name: "NotInside",
    arguments: "",
    meaning: "A client is asked to leave while it is not inside. The call changes nothing.",
    example: "$ printf 'world 1 1000\\nleave 0\\n' > script.txt\n\
        $ (cat examples/wheel-3-planned.txt; echo %%; cat script.txt) | ./qlock world\n\
        ! C2 NotInside",
    mistakes: "A vote of its quorum has not arrived yet, or was given back to its\n\
        voter. Deliver the messages, or give up in place of leaving.",
};

const C3: Explanation = Explanation {
    code: "C3",
    name: "NotAsking",
    arguments: "",
    meaning: "A client is asked to give up while it does not ask. The call changes\n\
        nothing.",
    example: "$ printf 'world 1 1000\\ngive-up 0\\n' > script.txt\n\
        $ (cat examples/wheel-3-planned.txt; echo %%; cat script.txt) | ./qlock world\n\
        ! C3 NotAsking",
    mistakes: "The client has entered in the meantime: let it leave. Or it has left\n\
        already.",
};

const C4: Explanation = Explanation {
    code: "C4",
    name: "StampsSpent",
    arguments: "",
    meaning: "No stamp is left for a request of a client: its clock is at the limit. The\n\
        limit is the second number of the script's first line. The call changes\n\
        nothing.",
    example: "$ printf 'world 1 1\\nask 0\\ngive-up 0\\nask 0\\n' > script.txt\n\
        $ (cat examples/wheel-3-planned.txt; echo %%; cat script.txt) |\n\
        >     ./qlock world | tail -n 1\n\
        ! C4 StampsSpent",
    mistakes: "The limit is too small: each request takes a stamp above all that its\n\
        client has seen. Outside a script take a limit that is never reached,\n\
        such as 2^64 - 1.",
};

const V1: Explanation = Explanation {
    code: "V1",
    name: "GrantsSpent",
    arguments: "",
    meaning: "A message needs a new grant of a voter, and the voter gave as many as it\n\
        may. The message changes nothing.",
    example: "$ cat script.txt\n\
        world 2 1\n\
        ask 0\n\
        ask 1\n\
        deliver 0\n\
        deliver 2\n\
        give-up 0\n\
        deliver 6\n\
        $ (cat examples/wheel-3-planned.txt; echo %%; cat script.txt) |\n\
        >     ./qlock world | tail -n 1\n\
        ! V1 GrantsSpent",
    mistakes: "The limit is too small: a voter needs a grant for each vote that it\n\
        gives. Outside a script take a limit that is never reached, such as 2^64\n\
        - 1.",
};

const K2: Explanation = Explanation {
    code: "K2",
    name: "TurnsSpent",
    arguments: "c",
    meaning: "The turns of client c are spent, and those of no client with a smaller\n\
        number. Each look for a message is a turn, and each pass takes one more. The\n\
        run has no record.",
    example: "$ ./qlock run 2 1 0 < examples/wheel-3-planned.txt\n\
        K2 TurnsSpent 0",
    mistakes: "TURNS is too small, or the machine was busy, since looks at an empty\n\
        mailbox count too. A million turns for each pass are plenty, and\n\
        1000000000000 is no limit in practice.",
};

const B2: Explanation = Explanation {
    code: "B2",
    name: "VoteOut",
    arguments: "v",
    meaning: "A vote of voter v was not given back. At the end of a run this means that\n\
        the run has no record. No run is known to end so.",
    example: "seat.grant(&board, client, grant); // the seat of voter 0\n\
        root.join_voter(&board, seat) // fails, and returns the seat\n\
        B2 VoteOut 0",
    mistakes: "The seat of a voter or a client was joined before the client gave the\n\
        vote back and the voter settled it. Do both first. If `./qlock run`\n\
        printed it, report it.",
};

const B3: Explanation = Explanation {
    code: "B3",
    name: "RegisterFull",
    arguments: "",
    meaning: "A pass found the register at its limit, which is 2^63 in a run. The pass did\n\
        not count. No run is known to end so.",
    example: "let (board, mut root) = Board::new(alloc, &coterie, 1, 1)?; // the limit is 1\n\
        seat.write_register(&board) // after a reading of the register at 1\n\
        B3 RegisterFull",
    mistakes: "The limit of a board of your own is smaller than the number of passes.",
};

/// Returns the explanations of the faults of clients, voters and runs.
pub(crate) fn protocol() -> &'static [Explanation]
    ensures { codes_of result.now ≡ protocol_codes }
{
    &[U1, U2, U3, U4, C1, C2, C3, C4, V1, K2, B2, B3]
}
