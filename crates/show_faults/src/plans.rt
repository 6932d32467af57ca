//! Faults of plans, and of the search for one.
ghost use Rattle.std.specs.Prelude.{◌≡◌};
ghost use Rattle.show_faults.specs.Codes.{codes_of, plan_codes};

use crate::explanation::Explanation;

const P1: Explanation = Explanation {
    code: "P1",
    name: "WrongLength",
    arguments: "",
    meaning: "The plan has not exactly one weight for each quorum and one for each voter.",
    example: "$ sed 's/^quorum .*/quorum 1 1 1/' examples/wheel-3-planned.txt | ./qlock check\n\
        P1 WrongLength",
    mistakes: "The plan is that of another coterie. Or a quorum or a voter was added or\n\
        deleted after planning: plan again.",
};

const P2: Explanation = Explanation {
    code: "P2",
    name: "TooLarge",
    arguments: "",
    meaning: "The weights of the quorums, or those of the voters, add up to more than\n\
        1,000,000.",
    example: "$ sed 's/^quorum 1/quorum 1000001/' examples/wheel-3-planned.txt | ./qlock check\n\
        P2 TooLarge",
    mistakes: "The weights came from another program, as decimal fractions times a\n\
        large number. Divide them by their greatest common divisor, or let\n\
        `./qlock plan` find them.",
};

const P3: Explanation = Explanation {
    code: "P3",
    name: "Empty",
    arguments: "",
    meaning: "The weights of the quorums, or those of the voters, are all 0. Such a plan\n\
        would never use any quorum.",
    example: "$ sed 's/^quorum .*/quorum 0 0 0 0/' examples/wheel-3-planned.txt | ./qlock check\n\
        P3 Empty",
    mistakes: "The lines of the plan were prepared and not filled in. Let `./qlock\n\
        plan` find the weights.",
};

const P4: Explanation = Explanation {
    code: "P4",
    name: "NotOptimal",
    arguments: "m B t D",
    meaning: "The weights do not prove that the plan is optimal, since m times B is not t\n\
        times D. Here m is the greatest weight on the quorums with one voter, and B\n\
        is the sum of the voters' weights. Further, t is the least weight of a\n\
        quorum's members, and D is the sum of the quorums' weights.",
    example: "$ ./qlock check < examples/refused-plan.txt\n\
        P4 NotOptimal 3 5 3 4",
    mistakes: "Weights were changed by hand, or the plan is that of another coterie\n\
        with the same number of quorums and voters. The plan may even be\n\
        optimal, with voters' weights that do not show it. Let `./qlock plan`\n\
        find both lines.",
};

const P5: Explanation = Explanation {
    code: "P5",
    name: "BadText",
    arguments: "line",
    meaning: "This line of the plan is the first that is missing or not written as it has\n\
        to be. Lines count from 1, within the part. Text after the last line of the\n\
        plan is reported as the line after it.",
    example: "$ sed 's/^cycle 5/cycle 05/' examples/wheel-3-planned.txt | ./qlock check\n\
        P5 BadText 3",
    mistakes: "Carriage returns, no newline at the end, a leading zero, or two spaces.\n\
        An empty line before or after the plan. Or version 2 with capacities\n\
        that are all 1: that is version 1, without the line `capacity`. Or\n\
        `./qlock` was given a text of weights, which `qlock-show` alone reads.",
};

const P6: Explanation = Explanation {
    code: "P6",
    name: "WrongLoad",
    arguments: "",
    meaning: "The plan is optimal, and its second line is not its load. The load is\n\
        written in lowest terms.",
    example: "$ sed 's,^load 3/5,load 6/10,' examples/wheel-3-planned.txt | ./qlock check\n\
        P6 WrongLoad",
    mistakes: "Weights were changed, and the load was not. Or it is not in lowest\n\
        terms. With capacities it is the greatest count divided by its voter's\n\
        capacity, and then by the cycle's length. Or it is the plan of another\n\
        coterie.",
};

const P7: Explanation = Explanation {
    code: "P7",
    name: "WrongCycle",
    arguments: "",
    meaning: "The plan is optimal and has the right load, and its third line is not the\n\
        sum of the quorums' weights. Of a text of weights it is the fourth line, which\n\
        is tested after the bound.",
    example: "$ sed 's/^cycle 5/cycle 10/' examples/wheel-3-planned.txt | ./qlock check\n\
        P7 WrongCycle",
    mistakes: "All weights were multiplied by a number, and the cycle was not. Write\n\
        the sum of the line `quorum`.",
};

const P8: Explanation = Explanation {
    code: "P8",
    name: "NotOptimalRatio",
    arguments: "p q S t D",
    meaning: "Some capacity is not 1, and the weights do not prove that the plan is\n\
        optimal: p times S is not q times t times D. Here p/q is the greatest weight\n\
        on the quorums with one voter, divided by its capacity, in lowest terms. S is\n\
        the sum of the voters' weights, each times the capacity. Further, t is the\n\
        least weight of a quorum's members, and D is the sum of the quorums' weights.\n\
        The load is p/(q D) then, and `P4` does not come.",
    example: "$ cat plan.txt\n\
        quorum-plan 2\n\
        load 3/5\n\
        cycle 5\n\
        capacity 2 1 1 1\n\
        quorum 1 1 1 2\n\
        voter 2 1 1 1\n\
        $ (cat examples/wheel-3-fast-hub.toml; echo %%; cat plan.txt) | ./qlock check\n\
        P8 NotOptimalRatio 3 1 7 3 5",
    mistakes: "Only the line `capacity` was added to a plan for equal capacities. Other\n\
        capacities need other weights: plan again.",
};

const P9: Explanation = Explanation {
    code: "P9",
    name: "WrongCapacity",
    arguments: "",
    meaning: "The capacities of the plan are not those of the coterie. A plan of version 1\n\
        is one for capacities that are all 1. This is tested after `P5` and before\n\
        `P1`.",
    example: "$ ./qlock check < examples/refused-capacity.txt\n\
        P9 WrongCapacity",
    mistakes: "The plan was made before the key `capacity` was added or changed: plan\n\
        again. Or it is the plan of another coterie.",
};

const P10: Explanation = Explanation {
    code: "P10",
    name: "WrongBound",
    arguments: "",
    meaning: "The text of weights has their load, and its third line is not their bound. The\n\
        bound is written in lowest terms.",
    example: "$ sed 's,^bound 3/5,bound 6/10,' examples/wheel-3-near.txt | ./qlock-show check\n\
        P10 WrongBound",
    mistakes: "The voters' weights were changed, and the bound was not. Or it is not in\n\
        lowest terms. It is the least weight of a quorum's members, divided by\n\
        the sum of the voters' weights, each times the capacity.",
};

const N1: Explanation = Explanation {
    code: "N1",
    name: "NoPlan",
    arguments: "cause",
    meaning: "The planner found no plan. The cause says why its last attempt ended: `S1`\n\
        if a number did not fit, `S2` after 10,000 pivots, `P2` if the weights add\n\
        up to more than 1,000,000. The causes `S3`, `P1`, `P3`, `P4` and `P8` are\n\
        not expected.\n\
        \n\
        That does not mean that there is none. The fault never comes for a coterie\n\
        whose quorums have one size and whose voters are alike: each in equally many\n\
        quorums, and of the same capacity.",
    example: "$ ./qlock plan < examples/twenty-eight.toml\n\
        N1 NoPlan P2",
    mistakes: "The coterie is large and irregular: some random ones fail from 24 voters\n\
        on. Take a regular shape, or fewer voters. Or use capacities that are\n\
        small numbers. Or take weights that are near the best: `qlock-show near`\n\
        finds some for each coterie. A plan that another program found can be\n\
        checked by `./qlock check`.",
};

const S1: Explanation = Explanation {
    code: "S1",
    name: "Overflow",
    arguments: "",
    meaning: "The cause of an `N1 NoPlan`: a number of the simplex method did not fit, an\n\
        entry of its table in 128 bits, or a weight in 64.",
    example: "$ ./qlock plan < coterie.toml # with 100 irregular quorums of 56 voters\n\
        N1 NoPlan S1",
    mistakes: "The coterie is large and irregular. Take a regular shape, or fewer\n\
        voters.",
};

const S2: Explanation = Explanation {
    code: "S2",
    name: "PivotLimit",
    arguments: "",
    meaning: "The cause of an `N1 NoPlan`: the simplex method needs more than 10,000\n\
        pivots.",
    example: "$ ./qlock plan < coterie.toml # with thousands of irregular quorums\n\
        N1 NoPlan S2",
    mistakes: "The coterie is very large. Take a regular shape, or fewer voters.",
};

const S3: Explanation = Explanation {
    code: "S3",
    name: "NoRow",
    arguments: "",
    meaning: "The cause of an `N1 NoPlan`: no row limits the column that enters, so the\n\
        simplex method could go on without end.",
    example: "None is known: what is maximised is at most the number of voters.",
    mistakes: "It is not expected. If you meet it, report the coterie and its\n\
        capacities.",
};

/// Returns the explanations of the faults of plans, and of the causes that `N1 NoPlan` has.
pub(crate) fn plans() -> &'static [Explanation]
    ensures { codes_of result.now ≡ plan_codes }
{
    &[P1, P2, P3, P4, P5, P6, P7, P8, P9, P10, N1, S1, S2, S3]
}
