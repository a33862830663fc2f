//! The lines that the programs print where something is refused or fails, and what each says.

/// Lines of one form, and what such a line says. In a form `#` stands for a number, `*` for a word without blanks, and `~`, which
/// ends it, for any text; every other byte stands for itself.
#[derive(Clone, Copy)]
pub struct Told {
    pub form: &'static str,
    pub means: &'static str,
}

/// Every form of a line that begins with `refused` or `fault`, by the number of its status.
pub const LINES: [Told; 53] = [
    Told {
        form: "refused 2 words",
        means: "The command line is none that the program knows; --help lists the commands, and a number in one has no \
                sign and no leading zero.",
    },
    Told {
        form: "refused 3 line # cause 1",
        means: "This line of the schema file has none of the six forms (version, floor, caller, table, column, end), or a \
                name or number in it is not well formed; correct the line.",
    },
    Told {
        form: "refused 3 line # cause 2",
        means: "This line of the schema file can't stand at this place, or the file ends without the line 'end'; the order is \
                version, floor, callers, tables each with its columns, end.",
    },
    Told {
        form: "refused 3 line # cause 3",
        means: "The schema file is of another version; its first line must be 'version 1'.",
    },
    Told {
        form: "refused 3 line # cause 4",
        means: "The floor on this line of the schema file isn't 1 to 64, or a caller's calls aren't 1 to 65536; choose a \
                number within these bounds.",
    },
    Told {
        form: "refused 3 line # cause 5",
        means: "The rows of the table on this line of the schema file aren't 1 to 256; choose a number within these bounds.",
    },
    Told {
        form: "refused 3 line # cause 6",
        means: "The number after 'per' on this line of the schema file isn't 1 to 64, or is more than the table's rows; choose \
                a smaller number, but at least 1.",
    },
    Told {
        form: "refused 3 line # cause 7",
        means: "The name on this line of the schema file was given before, to a caller, to a table, or to a column of this \
                table; choose another name.",
    },
    Told {
        form: "refused 3 line # cause 8",
        means: "This line of the schema file is one caller, table or column too many; a schema has at most eight callers \
                and eight tables, and a table at most eight columns.",
    },
    Told {
        form: "refused 3 line # cause 9",
        means: "On this line of the schema file a table ends that has no column, or the schema ends without a table; add a \
                column or a table before it.",
    },
    Told {
        form: "refused 4 place # kind 1",
        means: "At this place of the SQL file, counted in bytes from 0, stands a character that no query may have; remove it.",
    },
    Told {
        form: "refused 4 place # kind 2",
        means: "The number at this place of the SQL file, counted in bytes from 0, is above 4294967295; use a smaller one.",
    },
    Told {
        form: "refused 4 place # kind 3",
        means: "The code at this place of the SQL file, counted in bytes from 0, isn't closed by a quote, or isn't 1 to 8 \
                characters without blanks, quotes and commas; correct it.",
    },
    Told {
        form: "refused 4 place # kind 4",
        means: "The name at this place of the SQL file, counted in bytes from 0, has more than 16 characters; use a shorter one.",
    },
    Told {
        form: "refused 4 place # kind 5",
        means: "The word or sign at this place of the SQL file, counted in bytes from 0, can't stand there, or the file ends \
                inside a query; check what stands there and before it, and that the query ends with a semicolon.",
    },
    Told {
        form: "refused 4 place # kind 6",
        means: "At this place of the SQL file, counted in bytes from 0, a fifth block of WITH begins; a query has at most four.",
    },
    Told {
        form: "refused 4 place # kind 7",
        means: "The query that goes on at this place of the SQL file, counted in bytes from 0, has more than 4096 bytes, its \
                semicolon included; make it shorter.",
    },
    Told {
        form: "refused 4 place # kind 8",
        means: "At this place of the SQL file, counted in bytes from 0, begins one query too many, or the file has no query; a \
                file has 1 to 16 queries, and a call of the desk has one.",
    },
    Told {
        form: "refused 5 kind 1 *",
        means: "There is no table, and no earlier block of WITH, of this name; check its spelling against the schema file.",
    },
    Told {
        form: "refused 5 kind 2 *",
        means: "No table or block that can be seen there has this column, or ORDER BY names no output column so; check the \
                spelling, and let ORDER BY name a column that the query puts out.",
    },
    Told {
        form: "refused 5 kind 3 *",
        means: "This name could mean two things: two columns, tables, blocks of WITH or output columns; write the table's name \
                before the column, or give one of them another name by AS.",
    },
    Told {
        form: "refused 5 kind 4 *",
        means: "The comparison that begins with this column sets a number against a code, or adds a number to a code; compare \
                values of one kind.",
    },
    Told {
        form: "refused 5 kind 5",
        means: "The query counts, groups or numbers the rows of a join, which this network doesn't do; count, group or number \
                where no tables are joined.",
    },
    Told {
        form: "refused 5 kind 6 *",
        means: "In a query that counts or groups, this output column is neither a column of GROUP BY nor a count; name it in \
                GROUP BY, or leave it out.",
    },
    Told {
        form: "refused 5 kind 7 *",
        means: "This block of WITH has ORDER BY or LIMIT, which only the main block may have; move it there.",
    },
    Told {
        form: "refused 5 kind 8",
        means: "The query takes more than 32 steps, where each use of a block of WITH counts anew; make it simpler.",
    },
    Told {
        form: "refused 5 kind 9",
        means: "At some step of the query there are more than 16 columns; use fewer columns or fewer tables.",
    },
    Told {
        form: "refused 6 * protected",
        means: "This output column is protected; it is shown only as a column of GROUP BY, with HAVING COUNT(*) >= a number that \
                is at least the floor of the schema file; group so, or leave it out.",
    },
    Told {
        form: "refused 6 * private",
        means: "This output column is private; a private column is never shown, and the counts of a GROUP BY over columns that \
                aren't all public only with HAVING COUNT(*) >= a number that is at least the floor; leave it out, or add that.",
    },
    Told {
        form: "refused 7 limit 1 unit #",
        means: "In this part of the query a list would have more than 4096 rows; by the bounds of the schema file, not by the \
                rows that are there; lower 'rows' or 'per' in the schema, or join fewer tables.",
    },
    Told {
        form: "refused 7 limit 2 unit #",
        means: "Up to this part the query takes more than 4194304 And gates, which is its limit; lower 'rows' or 'per' in the \
                schema, or ask a simpler query.",
    },
    Told {
        form: "refused 7 limit 3 unit #",
        means: "Up to this part the query takes more than 16777216 gates, which is its limit; lower 'rows' or 'per' in the \
                schema, or ask a simpler query.",
    },
    Told {
        form: "refused 8 a * rows",
        means: "Site A keeps more rows of this table than 'rows' in the schema file allows; raise that bound, or load the rows \
                anew into a fresh store.",
    },
    Told {
        form: "refused 8 b * rows",
        means: "Site B keeps more rows of this table than 'rows' in the schema file allows; raise that bound, or load the rows \
                anew into a fresh store.",
    },
    Told {
        form: "refused 8 a * per *",
        means: "At site A a value of this public column stands in more rows of this table than 'per' in the schema file \
                allows; raise that bound, or load the rows anew into a fresh store.",
    },
    Told {
        form: "refused 8 b * per *",
        means: "At site B a value of this public column stands in more rows of this table than 'per' in the schema file \
                allows; raise that bound, or load the rows anew into a fresh store.",
    },
    Told {
        form: "refused 8 a * type # *",
        means: "At site A this row of this table, counted from 0, has in this column a value of another kind than the schema \
                file says, none, or one too many; use the schema that the rows were loaded by.",
    },
    Told {
        form: "refused 8 b * type # *",
        means: "At site B this row of this table, counted from 0, has in this column a value of another kind than the schema \
                file says, none, or one too many; use the schema that the rows were loaded by.",
    },
    Told {
        form: "refused 9 ~",
        means: "There is no file of this name; check the name, and the folder in which the program was started.",
    },
    Told {
        form: "refused 10 files",
        means: "A file is there and couldn't be read, or has more than 536870912 bytes; check who may read it, and try again.",
    },
    Told {
        form: "refused 10 site a",
        means: "The store of site A, the file a.db, failed; check that no other program uses it, that it may be written, and \
                that it is a store of this version, and try again.",
    },
    Told {
        form: "refused 10 site b",
        means: "The store of site B, the file b.db, failed; check that no other program uses it, that it may be written, and \
                that it is a store of this version, and try again.",
    },
    Told {
        form: "refused 10 desk",
        means: "The store of the desk, the file desk.db, failed; check that no other program uses it and that it may be written, \
                and try again; never replace it by an older copy or a new one while the key stays.",
    },
    Told {
        form: "refused 11 tickets",
        means: "All tickets of this network are given out; make a new network, with a new key and a new desk store.",
    },
    Told {
        form: "refused 13 record # cause 1",
        means: "The first record of the CSV file isn't the names of the table's columns, in the order of the schema file; \
                correct it.",
    },
    Told {
        form: "refused 13 record # cause 2",
        means: "This record of the CSV file, where the header is record 0, has another number of fields than the table has \
                columns; correct it.",
    },
    Told {
        form: "refused 13 record # cause 3",
        means: "A field of this record of the CSV file, where the header is record 0, is no value of its column: a number is 0 to \
                4294967295, a code 1 to 8 characters without blanks, quotes and commas; correct it.",
    },
    Told {
        form: "refused 14 row #",
        means: "The site keeps other rows under this batch number, the first of them at this row, counted from 0; give new rows \
                a new number, and repeat a batch with the same rows.",
    },
    Told {
        form: "refused 15 rows",
        means: "With this batch the site would keep more rows of the table than 'rows' in the schema file allows, so nothing was \
                taken; load fewer rows, or raise that bound.",
    },
    Told {
        form: "refused 15 per *",
        means: "With this batch a value of this public column would stand in more rows than 'per' in the schema file allows, so \
                nothing was taken; load fewer rows of that value, or raise that bound.",
    },
    Told {
        form: "refused 16 *",
        means: "The two worlds have different values in this public column, which the site may see; give the second world the \
                same set of values there.",
    },
    Told {
        form: "fault 1 tape.key",
        means: "The key file tape.key isn't there, or isn't 64 hexadecimal digits; put the key of this network there, and make a \
                new one, from a random source, for a new network alone.",
    },
    Told {
        form: "fault 1 port",
        means: "The port can't be listened on, most likely because another program does, or a connection wasn't taken; choose \
                another port, or end that program, and start again.",
    },
];
