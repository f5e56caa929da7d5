//! What the words of a command line ask for.

/// One of the program's commands.
#[derive(Clone, Copy, Debug, PartialEq, Eq)]
pub enum Line<'a> {
    /// Serve a script of interleaved transactions.
    Run,
    /// Serve a script of transactions that follow one another.
    Alone,
    /// Run scripts of several examiners at once in one office.
    Office {
        /// How many examiners are at work at once, 1 to 64. Each takes the rows of one script.
        examiners: u32,
        /// How many times at most a transaction is begun before its examiner gives it up, 1 to 10,000.
        tries: u32,
    },
    /// Serve rows as they come, and answer each before more are waited for.
    Desk,
    /// List the parts of the land that this description names.
    Tract(&'a str),
    /// Serve a script on top of what stands in a plant's file, and put into the file what the script declares and commits.
    Kept {
        /// The file's name.
        plant: &'a str,
        /// The last place that is expected there, where one is.
        after: Option<u64>,
        /// How the script's transactions come.
        work: Work,
    },
    /// Serve rows as they come on top of what stands in a plant's file, and put into the file what they declare and commit before each
    /// is answered.
    KeptDesk {
        /// The file's name.
        plant: &'a str,
    },
    /// Serve a script of transactions that follow one another on top of what stands in a plant's file, and keep nothing.
    Look {
        /// The file's name.
        plant: &'a str,
        /// The last place that is expected there, where one is.
        after: Option<u64>,
    },
    /// Serve rows as they come on top of what stands in a plant's file, and keep nothing.
    LookDesk {
        /// The file's name.
        plant: &'a str,
    },
    /// Run scripts of several examiners at once in one office on top of what stands in a plant's file, and put into the file what they
    /// declare and commit.
    KeptOffice {
        /// The file's name.
        plant: &'a str,
        /// The last place that is expected there, where one is.
        after: Option<u64>,
        /// How many examiners are at work at once, as for `Office`.
        examiners: u32,
        /// How many times at most a transaction is begun, as for `Office`.
        tries: u32,
    },
    /// Tell what stands in a plant's file.
    Check {
        /// The file's name.
        file: &'a str,
        /// Whether as a script, and not in numbers.
        as_script: bool,
    },
}

/// How the transactions of a script come that is kept in a plant's file.
#[derive(Clone, Copy, Debug, PartialEq, Eq)]
pub enum Work {
    /// Interleaved, as for `run`.
    Run,
    /// One after another, as for `alone`.
    Alone,
}

/// Why the words give no command. The text of `Help` and `Bad`, by `Display`, is for the user.
#[derive(Debug, Drop, thiserror::Error)]
pub enum LineFault {
    /// The words ask for help.
    #[error(transparent)]
    Help(clap::Error),
    /// The words aren't understood.
    #[error(transparent)]
    Bad(clap::Error),
    /// Memory ran out.
    #[error("fault,6")]
    Memory,
}
