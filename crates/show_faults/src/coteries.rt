//! Faults of coteries: of their texts, of their sets and of shapes.
ghost use Rattle.std.specs.Prelude.{◌≡◌};
ghost use Rattle.show_faults.specs.Codes.{codes_of, coterie_codes};

use crate::explanation::Explanation;

const F1: Explanation = Explanation {
    code: "F1",
    name: "NotToml",
    arguments: "",
    meaning: "The coterie's text is not UTF-8, or it is no TOML document.",
    example: "$ cat coterie.toml\n\
        voters = [\"a\", \"b\"]\n\
        quorums = [[\"a\" \"b\"]]\n\
        $ ./qlock plan < coterie.toml\n\
        F1 NotToml",
    mistakes: "A comma, a bracket or a quotation mark is missing. Or the plan came\n\
        before the coterie: the coterie is the first part.",
};

const F2: Explanation = Explanation {
    code: "F2",
    name: "Keys",
    arguments: "",
    meaning: "A key is missing, unknown, or of the wrong kind. The keys are `voters`, an\n\
        array of strings, and `quorums`, an array of arrays of strings. A third one,\n\
        `capacity`, is an array of whole numbers and may be left out.",
    example: "$ cat coterie.toml\n\
        voter = [\"a\", \"b\"]\n\
        quorums = [[\"a\", \"b\"]]\n\
        $ ./qlock plan < coterie.toml\n\
        F2 Keys",
    mistakes: "`voter` was written for `voters`, or `capacities` for `capacity`. A\n\
        quorum has numbers in place of names. A capacity has a decimal point. Or\n\
        the text has a key of your own: use a comment in its place.",
};

const F3: Explanation = Explanation {
    code: "F3",
    name: "BadName",
    arguments: "i",
    meaning: "The name of voter i is no name. Voters count from 0. A name has 1 to 64\n\
        bytes from `A-Z`, `a-z`, `0-9`, `_`, `-`, `.` and `:`.",
    example: "$ cat coterie.toml\n\
        voters = [\"rack 1\", \"rack 2\"]\n\
        quorums = [[\"rack 1\", \"rack 2\"]]\n\
        $ ./qlock plan < coterie.toml\n\
        F3 BadName 0",
    mistakes: "The name has a space, a slash or a letter with an accent, or it is\n\
        empty. Replace what is not allowed, for example by `-`.",
};

const F4: Explanation = Explanation {
    code: "F4",
    name: "RepeatedName",
    arguments: "i",
    meaning: "The name of voter i is also the name of an earlier voter. Voters count from\n\
        0.",
    example: "$ cat coterie.toml\n\
        voters = [\"a\", \"b\", \"a\"]\n\
        quorums = [[\"a\", \"b\"]]\n\
        $ ./qlock plan < coterie.toml\n\
        F4 RepeatedName 2",
    mistakes: "A line was copied and its number was not changed. Each voter needs a\n\
        name of its own, even if two of them run on one machine.",
};

const F5: Explanation = Explanation {
    code: "F5",
    name: "UnknownName",
    arguments: "j",
    meaning: "Quorum j lists a name that is not in `voters`. Quorums count from 0.",
    example: "$ cat coterie.toml\n\
        voters = [\"rim1\", \"rim2\"]\n\
        quorums = [[\"rim1\", \"rim3\"]]\n\
        $ ./qlock plan < coterie.toml\n\
        F5 UnknownName 0",
    mistakes: "A typing error in a quorum, or another letter case: `Rim1` is not\n\
        `rim1`. Or a voter was removed from `voters`, and not from the quorums.",
};

const F6: Explanation = Explanation {
    code: "F6",
    name: "RepeatedMember",
    arguments: "j",
    meaning: "Quorum j lists a voter twice. Quorums count from 0.",
    example: "$ cat coterie.toml\n\
        voters = [\"a\", \"b\"]\n\
        quorums = [[\"a\", \"b\", \"a\"]]\n\
        $ ./qlock plan < coterie.toml\n\
        F6 RepeatedMember 0",
    mistakes: "Two voters were meant, and one name was typed for both. A quorum is a\n\
        set: a voter cannot count twice in it. For voters with more votes than\n\
        others see `examples/weighted-votes.toml`.",
};

const F7: Explanation = Explanation {
    code: "F7",
    name: "CapacityCount",
    arguments: "k",
    meaning: "The key `capacity` has k numbers, and there are not k voters. It has one\n\
        number for each voter, in the order of `voters`.",
    example: "$ cat coterie.toml\n\
        voters = [\"a\", \"b\"]\n\
        capacity = [2]\n\
        quorums = [[\"a\", \"b\"]]\n\
        $ ./qlock plan < coterie.toml\n\
        F7 CapacityCount 1",
    mistakes: "A voter was added or removed, and `capacity` was not changed. Or only\n\
        the capacities that are not 1 were listed: list them all, or leave the\n\
        key out.",
};

const F8: Explanation = Explanation {
    code: "F8",
    name: "BadCapacity",
    arguments: "i",
    meaning: "The capacity of voter i is not 1 to 1000. Voters count from 0.",
    example: "$ cat coterie.toml\n\
        voters = [\"a\", \"b\"]\n\
        capacity = [2, 0]\n\
        quorums = [[\"a\", \"b\"]]\n\
        $ ./qlock plan < coterie.toml\n\
        F8 BadCapacity 1",
    mistakes: "Requests per second were written. Only the proportions count, so divide\n\
        all capacities by one number. A voter that should not be asked at all\n\
        has no capacity 0: delete the quorums that contain it.",
};

const E1: Explanation = Explanation {
    code: "E1",
    name: "NoVoters",
    arguments: "",
    meaning: "There is no voter. A coterie has 1 to 64 voters.",
    example: "$ printf 'voters = []\\nquorums = []\\n' | ./qlock plan\n\
        E1 NoVoters",
    mistakes: "A script that writes the coterie found no machines. Look at what it\n\
        read.",
};

const E2: Explanation = Explanation {
    code: "E2",
    name: "TooManyVoters",
    arguments: "",
    meaning: "There are more than 64 voters.",
    example: "$ names=$(printf '\"v%s\", ' $(seq 0 64))\n\
        $ printf 'voters = [%s]\\nquorums = [[\"v0\"]]\\n' \"$names\" | ./qlock plan\n\
        E2 TooManyVoters",
    mistakes: "All machines were listed as voters. Not all of them have to be: the\n\
        others can be clients.",
};

const E3: Explanation = Explanation {
    code: "E3",
    name: "NoQuorums",
    arguments: "",
    meaning: "There is no quorum. A coterie has 1 to 4096 quorums.",
    example: "$ printf 'voters = [\"a\"]\\nquorums = []\\n' | ./qlock plan\n\
        E3 NoQuorums",
    mistakes: "All quorums that contain a voter were deleted, and each of them did. Add\n\
        a quorum without that voter.",
};

const E4: Explanation = Explanation {
    code: "E4",
    name: "TooManyQuorums",
    arguments: "",
    meaning: "There are more than 4096 quorums.",
    example: "$ sets=$(printf '[\"a\"],%.0s' $(seq 4097))\n\
        $ printf 'voters = [\"a\"]\\nquorums = [%s]\\n' \"$sets\" | ./qlock plan\n\
        E4 TooManyQuorums",
    mistakes: "All majorities of 15 voters or more were listed. Use another shape:\n\
        `docs/choosing.md` has one for each number of voters.",
};

const E5: Explanation = Explanation {
    code: "E5",
    name: "EmptyQuorum",
    arguments: "j",
    meaning: "Quorum j has no member. Quorums count from 0. A client of an empty quorum\n\
        would ask nobody.",
    example: "$ cat coterie.toml\n\
        voters = [\"a\", \"b\"]\n\
        quorums = [[\"a\", \"b\"], []]\n\
        $ ./qlock plan < coterie.toml\n\
        E5 EmptyQuorum 1",
    mistakes: "A voter was deleted from a quorum of which it was the only member.\n\
        Delete the quorum too.",
};

const E6: Explanation = Explanation {
    code: "E6",
    name: "VoterOutOfRange",
    arguments: "j i",
    meaning: "Quorum j has the member i, and no voter has this number. Numbers count from\n\
        0. Only the call `Coterie::of` of the crate `quorum_set` returns this: in a\n\
        text the members are names, and `F5` comes in its place.",
    example: "Coterie::of(3, sets), where the sets are {0, 1} and {3}\n\
        E6 VoterOutOfRange 1 3",
    mistakes: "Voters were counted from 1. Or the first argument, the number of voters,\n\
        is that of the quorums.",
};

const E7: Explanation = Explanation {
    code: "E7",
    name: "Disjoint",
    arguments: "j k",
    meaning: "Quorums j and k have no common member. Quorums count from 0. Any two quorums\n\
        have to share a voter, since otherwise two clients could hold the lock at\n\
        once.",
    example: "$ cat coterie.toml\n\
        voters = [\"a\", \"b\", \"c\", \"d\"]\n\
        quorums = [[\"a\", \"b\"], [\"c\", \"d\"]]\n\
        $ ./qlock plan < coterie.toml\n\
        E7 Disjoint 0 1",
    mistakes: "The sets are too small, such as 2 of 4 voters: take 3 of 4. Or the base\n\
        of a ring misses a difference, as in `make cyclic 4 0 2`:\n\
        `docs/choosing.md` has a base for each ring of 5 to 21 voters.",
};

const E8: Explanation = Explanation {
    code: "E8",
    name: "Contained",
    arguments: "j k",
    meaning: "One of quorums j and k lies within the other, or they are equal. Quorums\n\
        count from 0. The larger one is of no use: whoever asks it may ask the\n\
        smaller one, which is less work.",
    example: "$ cat coterie.toml\n\
        voters = [\"a\", \"b\", \"c\"]\n\
        quorums = [[\"a\", \"b\"], [\"a\", \"b\", \"c\"]]\n\
        $ ./qlock plan < coterie.toml\n\
        E8 Contained 0 1",
    mistakes: "All sets with enough votes were listed: list the smallest ones only. Or\n\
        a shift of a ring repeats its base, as in `make cyclic 6 0 1 3 4`.\n\
        Delete the larger of the two quorums.",
};

const G1: Explanation = Explanation {
    code: "G1",
    name: "BadSize",
    arguments: "",
    meaning: "The numbers of a shape are too small. A grid has at least 2 rows and 2\n\
        columns, a majority 1 voter, a wheel 2 rims and a ring 1 voter. The base of\n\
        a ring is not empty, and each of its numbers is below the number of voters\n\
        and comes once.",
    example: "$ ./qlock make wheel 1\n\
        G1 BadSize",
    mistakes: "The base of a ring was counted from 1: it counts from 0. Or the number\n\
        of voters of `cyclic` was left out, so that the first number of the base\n\
        was taken for it.",
};

const G2: Explanation = Explanation {
    code: "G2",
    name: "TooLarge",
    arguments: "",
    meaning: "The shape has more than 64 voters or more than 4096 quorums. A majority has\n\
        at most 14 voters, and a tree has at most the height 3.",
    example: "$ ./qlock make majority 15\n\
        G2 TooLarge",
    mistakes: "A majority was wanted of many voters. A grid or a ring has few quorums\n\
        for up to 64 voters, and a smaller load: see `docs/choosing.md`.",
};

const J1: Explanation = Explanation {
    code: "J1",
    name: "NotBridged",
    arguments: "j k",
    meaning: "Quorum j of the old coterie and quorum k of the new one have no common\n\
        member. Quorums count from 0. While one plan is exchanged for the other, two\n\
        clients could hold the lock at once. `qlock-show world` fails with it for an\n\
        input of two coteries.",
    example: "$ ./qlock-show world -f old.toml -f old.plan -f new.toml -f new.plan -f script.txt\n\
        J1 NotBridged 2 0\n\
        from any two of three voters to the first voter alone",
    mistakes: "The new quorums are too small, or the voters of the new coterie are in\n\
        another order. Exchange in two steps, over any n - c + 1 of the n voters,\n\
        where the smallest quorum of the two coteries has c members.",
};

/// Returns the explanations of the faults of coteries.
pub(crate) fn coteries() -> &'static [Explanation]
    ensures { codes_of result.now ≡ coterie_codes }
{
    &[
        F1, F2, F3, F4, F5, F6, F7, F8, E1, E2, E3, E4, E5, E6, E7, E8, G1, G2, J1,
    ]
}
