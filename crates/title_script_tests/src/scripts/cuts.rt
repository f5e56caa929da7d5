// Beginnings of a script, and what each gives.

/// Beginnings of the script with so many bytes, `to` not among them: a fault, or so many bytes of the whole report and then
/// these rows.
#[derive(Clone, Copy)]
pub struct Cut {
    pub from: usize,
    pub to: usize,
    pub given: Result<(usize, &'static str), &'static str>,
}

pub static SCRIPT: &[u8] = b"township,T3N R2W\n\
    party,ADAMS\n\
    party,BELL\n\
    1,begin\n\
    2,begin\n\
    1,deed,11,UNITED STATES,ADAMS,S,W1/1,,T3N R2W sec 5\n\
    2,deed,12,UNITED STATES,BELL,S,W1/1,,T3N R2W sec 6\n\
    1,chain,T3N R2W sec 5\n\
    2,commit\n\
    1,commit\n\
    3,begin\n\
    3,chain,T3N R2W\n";

pub static REPORT: &[u8] = b"1,began\n\
    2,began\n\
    1,posted\n\
    2,posted\n\
    1,chain,1\n\
    1,entry,0,11,deed,UNITED STATES,ADAMS,S\n\
    2,committed,1\n\
    1,committed,2\n\
    3,began\n\
    3,chain,2\n\
    3,entry,1,12,deed,UNITED STATES,BELL,S\n\
    3,entry,2,11,deed,UNITED STATES,ADAMS,S\n\
    end,9\n";

pub static CUTS: [Cut; 68] = [
    Cut {
        from: 0,
        to: 1,
        given: Ok((0, "end,0\n")),
    },
    Cut {
        from: 1,
        to: 16,
        given: Err("fault,31,1"),
    },
    Cut {
        from: 16,
        to: 18,
        given: Ok((0, "end,0\n")),
    },
    Cut {
        from: 18,
        to: 24,
        given: Err("fault,31,2"),
    },
    Cut {
        from: 24,
        to: 30,
        given: Ok((0, "end,0\n")),
    },
    Cut {
        from: 30,
        to: 36,
        given: Err("fault,31,3"),
    },
    Cut {
        from: 36,
        to: 41,
        given: Ok((0, "end,0\n")),
    },
    Cut {
        from: 41,
        to: 47,
        given: Err("fault,31,4"),
    },
    Cut {
        from: 47,
        to: 49,
        given: Ok((8, "end,1\n")),
    },
    Cut {
        from: 49,
        to: 55,
        given: Err("fault,31,5"),
    },
    Cut {
        from: 55,
        to: 57,
        given: Ok((16, "end,2\n")),
    },
    Cut {
        from: 57,
        to: 94,
        given: Err("fault,31,6"),
    },
    Cut {
        from: 94,
        to: 95,
        given: Ok((16, "1,description,21,0\nend,3\n")),
    },
    Cut {
        from: 95,
        to: 96,
        given: Ok((16, "1,description,21,1\nend,3\n")),
    },
    Cut {
        from: 96,
        to: 97,
        given: Ok((16, "1,description,21,2\nend,3\n")),
    },
    Cut {
        from: 97,
        to: 98,
        given: Ok((16, "1,description,21,3\nend,3\n")),
    },
    Cut {
        from: 98,
        to: 99,
        given: Ok((16, "1,description,21,4\nend,3\n")),
    },
    Cut {
        from: 99,
        to: 100,
        given: Ok((16, "1,description,21,5\nend,3\n")),
    },
    Cut {
        from: 100,
        to: 101,
        given: Ok((16, "1,description,21,6\nend,3\n")),
    },
    Cut {
        from: 101,
        to: 103,
        given: Ok((25, "end,3\n")),
    },
    Cut {
        from: 103,
        to: 104,
        given: Ok((16, "1,description,21,9\nend,3\n")),
    },
    Cut {
        from: 104,
        to: 105,
        given: Ok((16, "1,description,21,10\nend,3\n")),
    },
    Cut {
        from: 105,
        to: 106,
        given: Ok((16, "1,description,21,11\nend,3\n")),
    },
    Cut {
        from: 106,
        to: 107,
        given: Ok((16, "1,description,21,12\nend,3\n")),
    },
    Cut {
        from: 107,
        to: 109,
        given: Ok((25, "end,3\n")),
    },
    Cut {
        from: 109,
        to: 145,
        given: Err("fault,31,7"),
    },
    Cut {
        from: 145,
        to: 146,
        given: Ok((25, "2,description,21,0\nend,4\n")),
    },
    Cut {
        from: 146,
        to: 147,
        given: Ok((25, "2,description,21,1\nend,4\n")),
    },
    Cut {
        from: 147,
        to: 148,
        given: Ok((25, "2,description,21,2\nend,4\n")),
    },
    Cut {
        from: 148,
        to: 149,
        given: Ok((25, "2,description,21,3\nend,4\n")),
    },
    Cut {
        from: 149,
        to: 150,
        given: Ok((25, "2,description,21,4\nend,4\n")),
    },
    Cut {
        from: 150,
        to: 151,
        given: Ok((25, "2,description,21,5\nend,4\n")),
    },
    Cut {
        from: 151,
        to: 152,
        given: Ok((25, "2,description,21,6\nend,4\n")),
    },
    Cut {
        from: 152,
        to: 154,
        given: Ok((25, "2,conflict,1\nend,4\n")),
    },
    Cut {
        from: 154,
        to: 155,
        given: Ok((25, "2,description,21,9\nend,4\n")),
    },
    Cut {
        from: 155,
        to: 156,
        given: Ok((25, "2,description,21,10\nend,4\n")),
    },
    Cut {
        from: 156,
        to: 157,
        given: Ok((25, "2,description,21,11\nend,4\n")),
    },
    Cut {
        from: 157,
        to: 158,
        given: Ok((25, "2,description,21,12\nend,4\n")),
    },
    Cut {
        from: 158,
        to: 160,
        given: Ok((34, "end,4\n")),
    },
    Cut {
        from: 160,
        to: 167,
        given: Err("fault,31,8"),
    },
    Cut {
        from: 167,
        to: 168,
        given: Ok((34, "1,description,21,0\nend,5\n")),
    },
    Cut {
        from: 168,
        to: 169,
        given: Ok((34, "1,description,21,1\nend,5\n")),
    },
    Cut {
        from: 169,
        to: 170,
        given: Ok((34, "1,description,21,2\nend,5\n")),
    },
    Cut {
        from: 170,
        to: 171,
        given: Ok((34, "1,description,21,3\nend,5\n")),
    },
    Cut {
        from: 171,
        to: 172,
        given: Ok((34, "1,description,21,4\nend,5\n")),
    },
    Cut {
        from: 172,
        to: 173,
        given: Ok((34, "1,description,21,5\nend,5\n")),
    },
    Cut {
        from: 173,
        to: 174,
        given: Ok((34, "1,description,21,6\nend,5\n")),
    },
    Cut {
        from: 174,
        to: 176,
        given: Ok((34, "1,conflict,2\nend,5\n")),
    },
    Cut {
        from: 176,
        to: 177,
        given: Ok((34, "1,description,21,9\nend,5\n")),
    },
    Cut {
        from: 177,
        to: 178,
        given: Ok((34, "1,description,21,10\nend,5\n")),
    },
    Cut {
        from: 178,
        to: 179,
        given: Ok((34, "1,description,21,11\nend,5\n")),
    },
    Cut {
        from: 179,
        to: 180,
        given: Ok((34, "1,description,21,12\nend,5\n")),
    },
    Cut {
        from: 180,
        to: 182,
        given: Ok((84, "end,5\n")),
    },
    Cut {
        from: 182,
        to: 189,
        given: Err("fault,31,9"),
    },
    Cut {
        from: 189,
        to: 191,
        given: Ok((98, "end,6\n")),
    },
    Cut {
        from: 191,
        to: 198,
        given: Err("fault,31,10"),
    },
    Cut {
        from: 198,
        to: 200,
        given: Ok((112, "end,7\n")),
    },
    Cut {
        from: 200,
        to: 206,
        given: Err("fault,31,11"),
    },
    Cut {
        from: 206,
        to: 208,
        given: Ok((120, "end,8\n")),
    },
    Cut {
        from: 208,
        to: 215,
        given: Err("fault,31,12"),
    },
    Cut {
        from: 215,
        to: 216,
        given: Ok((120, "3,description,21,0\nend,9\n")),
    },
    Cut {
        from: 216,
        to: 217,
        given: Ok((120, "3,description,21,1\nend,9\n")),
    },
    Cut {
        from: 217,
        to: 218,
        given: Ok((120, "3,description,21,2\nend,9\n")),
    },
    Cut {
        from: 218,
        to: 219,
        given: Ok((120, "3,description,21,3\nend,9\n")),
    },
    Cut {
        from: 219,
        to: 220,
        given: Ok((120, "3,description,21,4\nend,9\n")),
    },
    Cut {
        from: 220,
        to: 221,
        given: Ok((120, "3,description,21,5\nend,9\n")),
    },
    Cut {
        from: 221,
        to: 222,
        given: Ok((120, "3,description,21,6\nend,9\n")),
    },
    Cut {
        from: 222,
        to: 224,
        given: Ok((215, "")),
    },
];
